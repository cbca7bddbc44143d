// Most tests are a table of calls, each with the number of the refusal that it has to meet, if any, run on one device one after the other.
//
// The chip of most of them has 2 blocks of 2 pages and the life 2. In its 2,120 bytes the erase counts stand at 20 and 24, the sector numbers
// at 32 to 44, the stamps at 52 to 64 and the pages from 72 on.

use crate::bare::Bare;
use flash::blank::write_blank;
use flash::chip::ImageChip;
use flash::device::{Device, Mark, NO_SECTOR};
use flash::join::Join;
use flash::numbers::{Block, PageOffset, Sector};
use flash::window::Window;
use image::fault::ImageFault;
use image::shape::Geometry;
use std::process::Abort;
use std::test::Fail;

const SMALL: Geometry = Geometry {
    blocks: 2,
    pages: 2,
    life: 2,
};

const OTHER: Geometry = Geometry {
    blocks: 1,
    pages: 3,
    life: 1,
};

// A call as data, since one list of calls runs on devices of several types.
#[derive(Clone, Copy)]
enum Call {
    // block, page, length of the buffer
    Read(u32, u32, usize),
    // block, page, sector number, length of the bytes
    Program(u32, u32, u32, usize),
    Erase(u32),
    Count(u32),
}

// A call, and the number of its refusal where it has to be refused.
#[derive(Clone, Copy)]
struct Case(Call, Option<u32>);

// A read that is refused leaves its buffer as it was.
fn read_refusal<D: Device>(
    rt: &impl Abort,
    device: &D,
    block: u32,
    page: u32,
    size: usize,
) -> Result<Option<u32>, Fail> {
    let mut buffer = [0x5A; 513];
    let end = size.min(513);
    let answer = device.read(Block(block), PageOffset(page), &mut buffer[0..end]);
    if answer.is_err() {
        assert!(rt; buffer == [0x5A; 513]);
    }
    Ok(answer.err().map(|refusal| refusal.number()))
}

fn refusal<D: Device>(rt: &impl Abort, device: &mut D, call: Call) -> Result<Option<u32>, Fail> {
    let answer = match call {
        Call::Read(block, page, size) => return read_refusal(rt, device, block, page, size),
        Call::Program(block, page, sector, size) => {
            let bytes = [0xAB; 513];
            let end = size.min(513);
            let mark = Mark {
                sector: Sector(sector),
                stamp: 9,
            };
            device.program(Block(block), PageOffset(page), mark, &bytes[0..end])
        }
        Call::Erase(block) => device.erase(Block(block)),
        Call::Count(block) => device.count(Block(block)).map(|_| ()),
    };
    Ok(answer.err().map(|refusal| refusal.number()))
}

fn run<D: Device>(rt: &impl Abort, device: &mut D, cases: &[Case]) -> Result<(), Fail> {
    for (i, &Case(call, number)) in cases.iter().enumerate() {
        assert_eq!(rt; refusal(rt, device, call)?, number, "{i}");
    }
    Ok(())
}

// Blocks, pages and life.
fn shape<D: Device>(device: &D) -> (u32, u32, u32) {
    (device.blocks(), device.pages(), device.life())
}

// The sector that a page holds, where it is there and not blank.
fn sector_at<D: Device>(device: &D, block: u32, page: u32) -> Option<Sector> {
    let mut buffer = [0; 512];
    let mark = device
        .read(Block(block), PageOffset(page), &mut buffer)
        .ok()
        .flatten();
    mark.map(|mark| mark.sector)
}

// Puts bytes where there is room for them. The tests of images have a `put` of their own, of a number: a crate for both would be longer
// than both.
fn put(bytes: &mut [u8], at: usize, part: &[u8]) {
    let end = at.saturating_add(part.len());
    if let Some(place) = bytes.get_mut(at..end) {
        place.copy_from_slice(part);
    }
}

// The smaller number where two apply: each line has all the later reasons too.
const REFUSED: [Case; 13] = [
    Case(Call::Read(2, 2, 511), Some(1)),
    Case(Call::Read(1, 2, 511), Some(2)),
    Case(Call::Read(1, 1, 511), Some(3)),
    Case(Call::Read(1, 1, 513), Some(3)),
    Case(Call::Program(2, 2, NO_SECTOR, 511), Some(1)),
    Case(Call::Program(0, 2, NO_SECTOR, 511), Some(2)),
    Case(Call::Program(0, 0, NO_SECTOR, 511), Some(3)),
    Case(Call::Program(0, 0, NO_SECTOR, 513), Some(3)),
    Case(Call::Program(0, 0, NO_SECTOR, 512), Some(4)),
    Case(Call::Program(0, 0, 7, 512), Some(5)),
    Case(Call::Erase(2), Some(1)),
    Case(Call::Erase(1), Some(6)),
    Case(Call::Count(2), Some(1)),
];

#[test]
fn a_chip_refuses_in_order_and_stays_as_it_was(rt: HostRuntime) -> Result<(), Fail> {
    let mut bytes = [0; 2120];
    write_blank(&mut bytes, SMALL)?;
    let ready = [
        Case(Call::Program(0, 0, 5, 512), None),
        Case(Call::Erase(1), None),
        Case(Call::Erase(1), None),
        Case(Call::Read(1, 1, 512), None),
        Case(Call::Count(1), None),
    ];
    run(&rt, &mut ImageChip::new(&mut bytes), &ready)?;
    let before = bytes;
    run(&rt, &mut ImageChip::new(&mut bytes), &REFUSED)?;
    assert!(rt; bytes == before);
    Ok(())
}

#[test]
fn program_and_erase_change_their_own_bytes_only(rt: HostRuntime) -> Result<(), Fail> {
    let mut bytes = [0; 2120];
    write_blank(&mut bytes, SMALL)?;
    let blank = bytes;
    let program = [
        Case(Call::Program(0, 1, 7, 512), None),
        Case(Call::Program(1, 0, 0x0102_0304, 512), None),
    ];
    run(&rt, &mut ImageChip::new(&mut bytes), &program)?;
    let mut first = blank;
    put(&mut first, 36, &[7, 0, 0, 0]);
    put(&mut first, 56, &[9, 0, 0, 0]);
    put(&mut first, 584, &[0xAB; 512]);
    let mut both = first;
    put(&mut both, 40, &[4, 3, 2, 1]);
    put(&mut both, 60, &[9, 0, 0, 0]);
    put(&mut both, 1096, &[0xAB; 512]);
    assert!(rt; bytes == both);
    run(
        &rt,
        &mut ImageChip::new(&mut bytes),
        &[Case(Call::Erase(1), None)],
    )?;
    put(&mut first, 24, &[1]);
    assert!(rt; bytes == first);
    Ok(())
}

// A sector number of 0xFFFFFFFF makes a page blank, whatever its stamp and bytes are.
#[test]
fn a_blank_page_reads_as_ones(rt: HostRuntime) -> Result<(), Fail> {
    let mut bytes = [0; 2120];
    write_blank(&mut bytes, SMALL)?;
    put(&mut bytes, 52, &[0; 4]);
    put(&mut bytes, 72, &[1; 512]);
    let chip = ImageChip::new(&mut bytes);
    let mut buffer = [0; 512];
    assert_eq!(rt; chip.read(Block(0), PageOffset(0), &mut buffer), Ok(None));
    assert!(rt; buffer == [0xFF; 512]);
    Ok(())
}

#[test]
fn bytes_that_are_no_image_have_no_block(rt: HostRuntime) -> Result<(), Fail> {
    let mut bytes = [0; 2120];
    write_blank(&mut bytes, SMALL)?;
    put(&mut bytes, 68, &[5]);
    let before = bytes;
    let all = [
        Case(Call::Read(0, 0, 512), Some(1)),
        Case(Call::Program(0, 0, 7, 512), Some(1)),
        Case(Call::Erase(0), Some(1)),
        Case(Call::Count(0), Some(1)),
    ];
    let mut chip = ImageChip::new(&mut bytes);
    assert_eq!(rt; shape(&chip), (0, 0, 0));
    run(&rt, &mut chip, &all)?;
    assert!(rt; bytes == before);
    Ok(())
}

// The second side has 3 pages and the life 1, the first 2 pages and the life 2.
#[test]
fn a_join_has_the_smaller_pages_and_life_of_both_sides(rt: HostRuntime) -> Result<(), Fail> {
    let mut bytes = [0; 2120];
    let mut other = [0; 1596];
    write_blank(&mut bytes, SMALL)?;
    write_blank(&mut other, OTHER)?;
    run(
        &rt,
        &mut ImageChip::new(&mut other),
        &[Case(Call::Program(0, 2, 8, 512), None)],
    )?;
    let cases = [
        Case(Call::Program(3, 2, NO_SECTOR, 511), Some(1)),
        Case(Call::Program(2, 2, NO_SECTOR, 511), Some(2)),
        Case(Call::Read(2, 2, 512), Some(2)),
        Case(Call::Program(2, 1, 7, 512), None),
        Case(Call::Program(2, 1, 7, 512), Some(5)),
        Case(Call::Program(1, 1, 6, 512), None),
        Case(Call::Erase(3), Some(1)),
        Case(Call::Erase(0), None),
        Case(Call::Erase(0), Some(6)),
        Case(Call::Count(3), Some(1)),
    ];
    let mut join = Join::new(ImageChip::new(&mut bytes), ImageChip::new(&mut other));
    assert_eq!(rt; shape(&join), (3, 2, 1));
    run(&rt, &mut join, &cases)?;
    assert_eq!(rt;
        (sector_at(&join, 1, 1), sector_at(&join, 2, 1)),
        (Some(Sector(6)), Some(Sector(7)))
    );
    // an erase clears the page that the join hides too
    run(
        &rt,
        &mut join,
        &[Case(Call::Erase(2), None), Case(Call::Erase(2), Some(6))],
    )?;
    let other = ImageChip::new(&mut other);
    assert_eq!(rt; sector_at(&other, 0, 2), None);
    assert_eq!(rt; other.count(Block(0)), Ok(1));
    Ok(())
}

#[test]
fn a_join_with_an_empty_side_is_the_other(rt: HostRuntime) -> Result<(), Fail> {
    let mut bytes = [0; 2120];
    let mut other = [0; 1596];
    write_blank(&mut bytes, SMALL)?;
    write_blank(&mut other, OTHER)?;
    let mut none = [0; 3];
    let join = Join::new(ImageChip::new(&mut none), ImageChip::new(&mut bytes));
    assert_eq!(rt; shape(&join), (2, 2, 2));
    let join = Join::new(ImageChip::new(&mut bytes), ImageChip::new(&mut none));
    assert_eq!(rt; shape(&join), (2, 2, 2));
    let past = Window::new(ImageChip::new(&mut bytes), Block(2), 1);
    let also = Window::new(ImageChip::new(&mut other), Block(0), 0);
    assert_eq!(rt; shape(&Join::new(past, also)), (0, 3, 1));
    Ok(())
}

#[test]
fn a_join_shows_at_most_65_536_blocks(rt: HostRuntime) -> Result<(), Fail> {
    let sides = [
        (65_000, 536, 65_536),
        (65_000, 537, 65_536),
        (65_000, 535, 65_535),
        (70_000, 0, 65_536),
        (0, 70_000, 65_536),
        (70_000, 1, 65_536),
        (0xFFFF_FFFF, 0xFFFF_FFFF, 65_536),
    ];
    for (i, (first, second, blocks)) in sides.into_iter().enumerate() {
        let mut join = Join::new(Bare(first), Bare(second));
        assert_eq!(rt; join.blocks(), blocks, "{i}");
        let last = blocks - 1;
        let cases = [
            Case(Call::Count(last), None),
            Case(Call::Count(blocks), Some(1)),
            Case(Call::Erase(last), Some(6)),
            Case(Call::Erase(blocks), Some(1)),
            Case(Call::Read(last, 0, 512), Some(2)),
            Case(Call::Read(blocks, 0, 512), Some(1)),
        ];
        run(&rt, &mut join, &cases)?;
    }
    Ok(())
}

#[test]
fn a_window_is_cut_at_the_end(rt: HostRuntime) -> Result<(), Fail> {
    let windows = [
        (0, 2, 2),
        (0, 3, 2),
        (1, 1, 1),
        (1, 5, 1),
        (1, 0xFFFF_FFFF, 1),
        (2, 1, 0),
        (3, 1, 0),
        (0xFFFF_FFFF, 0xFFFF_FFFF, 0),
        (0, 0, 0),
    ];
    for (i, (first, count, blocks)) in windows.into_iter().enumerate() {
        let mut bytes = [0; 2120];
        write_blank(&mut bytes, SMALL)?;
        let mut window = Window::new(ImageChip::new(&mut bytes), Block(first), count);
        assert_eq!(rt; shape(&window), (blocks, 2, 2), "{i}");
        let past = [
            Case(Call::Read(blocks, 2, 511), Some(1)),
            Case(Call::Program(blocks, 2, NO_SECTOR, 511), Some(1)),
            Case(Call::Erase(blocks), Some(1)),
            Case(Call::Count(blocks), Some(1)),
        ];
        run(&rt, &mut window, &past)?;
    }
    Ok(())
}

// Block 1 of the pile is block 0 of the second chip, and block 2 is block 1 of the first.
#[test]
fn a_pile_of_joins_and_windows_is_a_device(rt: HostRuntime) -> Result<(), Fail> {
    let mut bytes = [0; 2120];
    let mut other = [0; 1596];
    let mut third = [0; 2120];
    write_blank(&mut bytes, SMALL)?;
    write_blank(&mut other, OTHER)?;
    write_blank(&mut third, SMALL)?;
    let join = Join::new(ImageChip::new(&mut bytes), ImageChip::new(&mut other));
    let window = Window::new(join, Block(1), 9);
    let mut pile = Join::new(window, Window::new(ImageChip::new(&mut third), Block(1), 1));
    assert_eq!(rt; shape(&pile), (3, 2, 1));
    let cases = [
        Case(Call::Program(0, 0, 4, 512), None),
        Case(Call::Program(1, 1, 5, 512), None),
        Case(Call::Program(2, 0, 6, 512), None),
        Case(Call::Program(1, 2, 7, 512), Some(2)),
        Case(Call::Program(3, 0, 7, 512), Some(1)),
        Case(Call::Erase(2), None),
        Case(Call::Erase(2), Some(6)),
    ];
    run(&rt, &mut pile, &cases)?;
    assert_eq!(rt;
        sector_at(&ImageChip::new(&mut bytes), 1, 0),
        Some(Sector(4))
    );
    assert_eq!(rt;
        sector_at(&ImageChip::new(&mut other), 0, 1),
        Some(Sector(5))
    );
    assert_eq!(rt; (third[20], third[24], third[40]), (0, 1, 0xFF));
    Ok(())
}

// A geometry, how many bytes there are for it, and the number, section and byte of the refusal.
#[derive(Clone, Copy)]
struct Room(Geometry, usize, u32, u32, usize);

const ROOMS: [Room; 12] = [
    Room(Geometry { blocks: 0, ..SMALL }, 3, 7, 1, 0),
    Room(Geometry { blocks: 0, ..SMALL }, 15, 7, 1, 4),
    Room(Geometry { blocks: 0, ..SMALL }, 16, 9, 1, 4),
    Room(
        Geometry {
            blocks: 4_097,
            ..SMALL
        },
        2120,
        9,
        1,
        4,
    ),
    Room(Geometry { pages: 0, ..SMALL }, 2120, 9, 1, 8),
    Room(Geometry { pages: 65, ..SMALL }, 2120, 9, 1, 8),
    Room(
        Geometry {
            life: 100_001,
            ..SMALL
        },
        2120,
        9,
        1,
        12,
    ),
    Room(SMALL, 19, 7, 2, 16),
    Room(SMALL, 47, 7, 3, 32),
    Room(SMALL, 51, 7, 4, 48),
    Room(SMALL, 2119, 7, 5, 72),
    Room(SMALL, 2121, 10, 5, 2120),
];

#[test]
fn a_blank_image_is_refused_as_its_check_would(rt: HostRuntime) {
    for (i, Room(geometry, length, number, section, byte)) in ROOMS.into_iter().enumerate() {
        let mut bytes = [0x5A; 2121];
        let end = length.min(2121);
        let answer = write_blank(&mut bytes[0..end], geometry).map_err(|fault| (
            fault.number(),
            fault.section(),
            fault.byte(),
        ));
        assert_eq!(rt; answer, Err((number, section, byte)), "{i}");
        assert!(rt; bytes == [0x5A; 2121], "{i}");
    }
}
