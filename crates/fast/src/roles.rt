// The roles of blocks, and the events by which they change.
//
// A free block is taken as data, as the sequential log block or as a random log block; the sequential log block is finished and becomes
// data; a block in use is given up and erased, and is free. There is no other way from role to role. The tables hold no list of roles:
// which role a block has is where it stands in them.

ghost use Rattle.std.specs.Prelude.{◌≡◌};
ghost use Rattle.std.specs.Option.{option_map};
ghost use Rattle.scheme.specs.Roles.{after};
ghost use Rattle.fast.specs.Roles.{role_told, event_told};

#[derive(Clone, Copy, PartialEq, Eq, Debug)]
pub enum Role {
    Free,
    Data,
    SequentialLog,
    RandomLog,
}

#[derive(Clone, Copy, PartialEq, Eq, Debug)]
pub enum Event {
    TakenAsData,
    TakenAsSequentialLog,
    TakenAsRandomLog,
    Finished,
    Erased,
}

impl Role {
    // The role that an event leads to, if it may happen to a block of this role.
    pub fn after(self, event: Event) -> Option<Role>
        ensures { option_map role_told result ≡ after (role_told self) (event_told event) }
    {
        match (self, event) {
            (Role::Free, Event::TakenAsData) => Some(Role::Data),
            (Role::Free, Event::TakenAsSequentialLog) => Some(Role::SequentialLog),
            (Role::Free, Event::TakenAsRandomLog) => Some(Role::RandomLog),
            (Role::SequentialLog, Event::Finished) => Some(Role::Data),
            (Role::Data | Role::SequentialLog | Role::RandomLog, Event::Erased) => Some(Role::Free),
            _ => None,
        }
    }
}
