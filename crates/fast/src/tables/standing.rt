// The role of a block, which is where it stands in the tables.

ghost use Rattle.std.specs.Prelude.{◌≡◌};
ghost use Rattle.scheme.specs.Roles.{role_of};
ghost use Rattle.fast.specs.Meaning.{view_of};
ghost use Rattle.fast.specs.Roles.{role_told};

use crate::roles::Role;
use crate::tables::Tables;
use flash::numbers::Block;

impl Tables {
    // The role of a block of the device. What is in no other table stores data: each block has just one role.
    pub(crate) fn role(&self, block: Block) -> Role
        ensures { role_told result ≡ role_of (view_of self.now) block.0 }
    {
        if self.free.blocks.contains(&block) {
            return Role::Free;
        }
        if self.rw.blocks.contains(&block) {
            return Role::RandomLog;
        }
        match self.sw {
            Some(sw) if sw.block == block => Role::SequentialLog,
            _ => Role::Data,
        }
    }
}
