// All on the module of two chips, 4 pages a block, life 100. What a case does is written for any device, so that it is proved once and
// without the module's types.

use chips::blank::blank_image;
use chips::module::{LEFT, RIGHT, layer_over, two_chips};
use fast::fit::Plan;
use fast::layer::{Found, Layer};
use fast::refusal::Refusal;
use fast::replay::{Answer, Call, play};
use flash::chip::ImageChip;
use flash::device::{Device, SECTOR_SIZE};
use flash::join::Join;
use flash::numbers::Sector;
use flash::window::Window;
use std::alloc::Global;
use std::process::Abort;
use std::test::Fail;

// Sectors, and the erases and copies that their writes answer once every sector was written in order.
const WORKED_RUN: [(u32, u32, u32); 20] = [
    (4, 0, 0),
    (5, 0, 0),
    (9, 0, 0),
    (7, 1, 1),
    (8, 0, 0),
    (9, 0, 0),
    (9, 2, 3),
    (0, 0, 0),
    (1, 0, 0),
    (2, 0, 0),
    (3, 0, 0),
    (12, 1, 0),
    (5, 0, 0),
    (6, 0, 0),
    (9, 0, 0),
    (10, 0, 0),
    (11, 0, 0),
    (1, 0, 0),
    (2, 0, 0),
    (3, 3, 8),
];

// Sector 5 is written into the random log and then into the sequential log, which makes its entry stale. When that entry's block becomes the
// victim, logical block 1 must not be merged for it: that would cost one erase and two copies more.
const STALE_ENTRY: [(u32, u32, u32); 11] = [
    (5, 0, 0),
    (4, 0, 0),
    (5, 0, 0),
    (9, 0, 0),
    (10, 0, 0),
    (13, 0, 0),
    (14, 0, 0),
    (11, 0, 0),
    (15, 0, 0),
    (9, 0, 0),
    (10, 3, 8),
];

fn write<D: Device>(layer: &mut Layer<D>, n: u32) -> Result<(u32, u32), Refusal> {
    layer.write(Sector(n), &[(n & 0xff) as u8; SECTOR_SIZE])
}

// Writes of these sectors answer these erases and copies.
fn answer<D: Device>(
    rt: &impl Abort,
    layer: &mut Layer<D>,
    writes: &[(u32, u32, u32)],
) -> Result<(), Fail> {
    for (i, w) in writes.iter().enumerate() {
        let (n, erases, copies) = *w;
        assert_eq!(rt; write(layer, n), Ok((erases, copies)), "{}", i);
    }
    Ok(())
}

// Every sector once, in order.
fn fill<D: Device>(rt: &impl Abort, layer: &mut Layer<D>) {
    for n in 0..16u32 {
        assert_eq!(rt; write(layer, n), Ok((0, 0)), "{}", n);
    }
}

fn sectors_and_stamps_end<D: Device>(rt: &impl Abort, layer: &mut Layer<D>) -> Result<(), Fail> {
    let mut buffer = [7u8; SECTOR_SIZE];
    assert_eq!(rt; layer.sectors(), 16);
    assert_eq!(rt;
        layer.read(Sector(15), &mut buffer),
        Ok(Found::NeverWritten)
    );
    assert_eq!(rt; buffer[511], 0xFF);
    assert_eq!(rt;
        layer.read(Sector(16), &mut [0; 3]),
        Err(Refusal::NoSuchSector)
    );
    assert_eq!(rt;
        layer.read(Sector(15), &mut [0; 511]),
        Err(Refusal::BufferNotASector)
    );
    assert_eq!(rt;
        layer.write(Sector(16), &[0; 3]),
        Err(Refusal::NoSuchSector)
    );
    assert_eq!(rt;
        layer.write(Sector(15), &[0; 513]),
        Err(Refusal::BufferNotASector)
    );
    // the last stamp but one is used, and the last never
    assert_eq!(rt; write(layer, 15), Ok((0, 0)));
    assert_eq!(rt; write(layer, 15), Err(Refusal::StampsUsedUp));
    assert_eq!(rt; write(layer, 14), Err(Refusal::StampsUsedUp));
    assert_eq!(rt; layer.read(Sector(15), &mut buffer), Ok(Found::Bytes));
    assert_eq!(rt; buffer[511], 15);
    Ok(())
}

// A write to a full layer, which is an overwrite, answers this.
fn overwrite_answers<D: Device>(
    rt: &impl Abort,
    layer: &mut Layer<D>,
    want: Result<(u32, u32), Refusal>,
) -> Result<(), Fail> {
    fill(rt, layer);
    assert_eq!(rt; write(layer, 5), want);
    Ok(())
}

// A write to sector 0 is refused so.
fn refuses<D: Device>(rt: &impl Abort, layer: &mut Layer<D>, refusal: Refusal) -> Result<(), Fail> {
    assert_eq!(rt; write(layer, 0), Err(refusal));
    Ok(())
}

// A list of calls on a sector that was never written, and on one that is not there.
fn plays<D: Device>(rt: &impl Abort, heap: Global, layer: &mut Layer<D>) -> Result<(), Fail> {
    let calls = vec![in heap;
        Call::Read(Sector(5), vec![in heap; 0; SECTOR_SIZE]?),
        Call::Write(Sector(5), vec![in heap; 7; SECTOR_SIZE]?),
        Call::Read(Sector(5), vec![in heap; 0; SECTOR_SIZE]?),
        Call::Write(Sector(16), vec![in heap; 9; SECTOR_SIZE]?),
    ]?;
    let expected = [
        (Answer::Read(Ok(Found::NeverWritten)), 0xFF),
        (Answer::Write(Ok((0, 0))), 7),
        (Answer::Read(Ok(Found::Bytes)), 7),
        (Answer::Write(Err(Refusal::NoSuchSector)), 9),
    ];
    let replies = play(heap, layer, calls)?;
    assert_eq!(rt; replies.len(), expected.len());
    for (reply, (answer, byte)) in replies.iter().zip(expected) {
        assert_eq!(rt; reply.answer, answer);
        assert!(rt; reply.buffer.as_slice() == [byte; SECTOR_SIZE].as_slice());
    }
    Ok(())
}

// Formats the module, whose first block was erased so often before, and tries a case on it. Answers whether the first image is as it was.
fn on_module<F: FnOnce(&mut Layer<Join<ImageChip, Window<ImageChip>>>) -> Result<(), Fail>>(
    rt: &impl Abort,
    heap: Global,
    erased: u8,
    logical: u32,
    first_stamp: u32,
    case: F,
) -> Result<bool, Fail>
    requires { F.IsAlwaysCallable case }
{
    let mut left = blank_image(heap, LEFT)?;
    let mut right = blank_image(heap, RIGHT)?;
    assert!(rt; left.len() > 20);
    left[20] = erased;
    let before = left.clone()?;
    let device = two_chips(ImageChip::new(&mut left), ImageChip::new(&mut right));
    let plan = Plan {
        logical,
        random: 2,
        first_stamp,
    };
    let mut layer = layer_over(heap, device, plan)?;
    case(&mut layer)?;
    drop(layer);
    Ok(left == before)
}

#[test]
fn a_list_of_calls_is_made(rt: HostRuntime) -> Result<(), Fail> {
    let same = on_module(&rt, rt.alloc(), 0, 4, 1, |layer| {
        plays(&rt, rt.alloc(), layer)
    })?;
    assert_eq!(rt; same, false);
    Ok(())
}

#[test]
fn the_worked_run(rt: HostRuntime) -> Result<(), Fail> {
    let same = on_module(&rt, rt.alloc(), 0, 4, 1, |layer| {
        fill(&rt, layer);
        answer(&rt, layer, &WORKED_RUN)
    })?;
    assert_eq!(rt; same, false);
    Ok(())
}

#[test]
fn a_stale_entry_is_not_merged_for(rt: HostRuntime) -> Result<(), Fail> {
    let same = on_module(&rt, rt.alloc(), 0, 4, 1, |layer| {
        fill(&rt, layer);
        answer(&rt, layer, &STALE_ENTRY)
    })?;
    assert_eq!(rt; same, false);
    Ok(())
}

#[test]
fn sectors_and_stamps_have_an_end(rt: HostRuntime) -> Result<(), Fail> {
    let same = on_module(&rt, rt.alloc(), 0, 4, 0xFFFF_FFFE, |layer| {
        sectors_and_stamps_end(&rt, layer)
    })?;
    assert_eq!(rt; same, false);
    let same = on_module(&rt, rt.alloc(), 0, 4, 0xFFFF_FFFF, |layer| {
        refuses(&rt, layer, Refusal::StampsUsedUp)
    })?;
    assert_eq!(rt; same, false);
    Ok(())
}

// Life is 100 and an overwrite may cost five erases: it is accepted at a count of 95 and refused at 96. Format adds one to each count.
#[test]
fn wear_is_checked_before_an_overwrite(rt: HostRuntime) -> Result<(), Fail> {
    let same = on_module(&rt, rt.alloc(), 94, 4, 1, |layer| {
        overwrite_answers(&rt, layer, Ok((0, 0)))
    })?;
    assert_eq!(rt; same, false);
    let same = on_module(&rt, rt.alloc(), 95, 4, 1, |layer| {
        overwrite_answers(&rt, layer, Err(Refusal::BlocksWornOut))
    })?;
    assert_eq!(rt; same, false);
    Ok(())
}

// Eight blocks bear four logical blocks and two random log blocks, and not five; nor does a block at the end of its life bear any. What does
// not fit is not touched.
#[test]
fn what_does_not_fit_is_left_alone(rt: HostRuntime) -> Result<(), Fail> {
    let same = on_module(&rt, rt.alloc(), 0, 5, 1, |layer| {
        assert_eq!(rt; layer.sectors(), 0);
        refuses(&rt, layer, Refusal::NoSuchSector)
    })?;
    assert_eq!(rt; same, true);
    let same = on_module(&rt, rt.alloc(), 100, 4, 1, |layer| {
        assert_eq!(rt; layer.sectors(), 0);
        refuses(&rt, layer, Refusal::NoSuchSector)
    })?;
    assert_eq!(rt; same, true);
    Ok(())
}
