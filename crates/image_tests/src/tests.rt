// One image of 2 blocks of 2 pages serves all: each case cuts it, changes one number in it or lengthens it.

use image::check::check;
use image::fault::ImageFault;
use image::report::look;
use image::shape::Geometry;
use std::alloc::{AllocError, Global};
use std::test::Fail;

const SMALL: Geometry = Geometry {
    blocks: 2,
    pages: 2,
    life: 100,
};

// What is done to a good image. A list of cases holds data: closures in it would each be a type of their own.
#[derive(Clone, Copy, Debug)]
enum Edit {
    // only so many bytes are kept
    Cut(usize),
    // the number at a byte becomes another
    Put(usize, u32),
    // one byte more
    Longer,
}

// An edit, and the number, section and byte of the refusal that it has to meet.
#[derive(Clone, Copy, Debug)]
struct Case(Edit, u32, u32, usize);

// The counts of the five sections stand at bytes 0, 16, 28, 48 and 68; the image has 2,120 bytes.
const CASES: [Case; 45] = [
    Case(Edit::Cut(0), 7, 1, 0),
    Case(Edit::Cut(3), 7, 1, 0),
    Case(Edit::Cut(4), 7, 1, 4),
    Case(Edit::Cut(10), 7, 1, 4),
    Case(Edit::Cut(15), 7, 1, 4),
    Case(Edit::Cut(16), 7, 2, 16),
    Case(Edit::Cut(19), 7, 2, 16),
    Case(Edit::Cut(20), 7, 2, 20),
    Case(Edit::Cut(27), 7, 2, 20),
    Case(Edit::Cut(28), 7, 3, 28),
    Case(Edit::Cut(31), 7, 3, 28),
    Case(Edit::Cut(32), 7, 3, 32),
    Case(Edit::Cut(47), 7, 3, 32),
    Case(Edit::Cut(48), 7, 4, 48),
    Case(Edit::Cut(51), 7, 4, 48),
    Case(Edit::Cut(52), 7, 4, 52),
    Case(Edit::Cut(67), 7, 4, 52),
    Case(Edit::Cut(68), 7, 5, 68),
    Case(Edit::Cut(71), 7, 5, 68),
    Case(Edit::Cut(72), 7, 5, 72),
    Case(Edit::Cut(2119), 7, 5, 72),
    Case(Edit::Put(0, 2), 8, 1, 0),
    Case(Edit::Put(0, 4), 8, 1, 0),
    Case(Edit::Put(16, 1), 8, 2, 16),
    Case(Edit::Put(16, 3), 8, 2, 16),
    Case(Edit::Put(28, 3), 8, 3, 28),
    Case(Edit::Put(28, 5), 8, 3, 28),
    Case(Edit::Put(48, 3), 8, 4, 48),
    Case(Edit::Put(48, 5), 8, 4, 48),
    Case(Edit::Put(68, 3), 8, 5, 68),
    Case(Edit::Put(68, 5), 8, 5, 68),
    // a wrong geometry that is in range shows in the section that it makes wrong
    Case(Edit::Put(4, 1), 8, 2, 16),
    Case(Edit::Put(4, 3), 8, 2, 16),
    Case(Edit::Put(8, 1), 8, 3, 28),
    Case(Edit::Put(8, 3), 8, 3, 28),
    // the highest of the four bytes counts too
    Case(Edit::Put(68, 0x0100_0004), 8, 5, 68),
    Case(Edit::Put(4, 0), 9, 1, 4),
    Case(Edit::Put(4, 4_097), 9, 1, 4),
    Case(Edit::Put(4, 0x8000_0002), 9, 1, 4),
    Case(Edit::Put(8, 0), 9, 1, 8),
    Case(Edit::Put(8, 65), 9, 1, 8),
    Case(Edit::Put(12, 0), 9, 1, 12),
    Case(Edit::Put(12, 100_001), 9, 1, 12),
    Case(Edit::Put(12, 0xFFFF_FFFF), 9, 1, 12),
    Case(Edit::Longer, 10, 5, 2120),
];

// A number into an image. The tests of devices have a `put` of their own, of any bytes: a crate for both would be longer than both.
fn put(bytes: &mut [u8], at: usize, n: u32) {
    if let Some(place) = bytes.get_mut(at..).and_then(|rest| rest.first_chunk_mut()) {
        *place = n.to_le_bytes();
    }
}

// A section of numbers that are all `n`.
fn push_numbers(bytes: &mut Vec<u8>, count: u32, n: u32) -> Result<(), AllocError> {
    bytes.extend_from_slice(&count.to_le_bytes())?;
    for _ in 0..count {
        bytes.extend_from_slice(&n.to_le_bytes())?;
    }
    Ok(())
}

// An image of this geometry with blank pages and erase counts of 3.
fn image_of(heap: Global, geometry: Geometry) -> Result<Vec<u8>, AllocError> {
    let Geometry {
        blocks,
        pages,
        life,
    } = geometry;
    let all = blocks.saturating_mul(pages);
    let mut bytes = Vec::new(heap);
    for n in [3, blocks, pages, life] {
        bytes.extend_from_slice(&n.to_le_bytes())?;
    }
    push_numbers(&mut bytes, blocks, 3)?;
    push_numbers(&mut bytes, all, 0xFFFF_FFFF)?;
    push_numbers(&mut bytes, all, 0xFFFF_FFFF)?;
    bytes.extend_from_slice(&all.to_le_bytes())?;
    for _ in 0..all {
        bytes.extend_from_slice(&[0xFF; 512])?;
    }
    Ok(bytes)
}

fn edited(heap: Global, edit: Edit) -> Result<Vec<u8>, AllocError> {
    let mut bytes = image_of(heap, SMALL)?;
    match edit {
        Edit::Cut(length) => bytes.truncate(length),
        Edit::Put(at, n) => put(&mut bytes, at, n),
        Edit::Longer => bytes.push(0)?,
    }
    Ok(bytes)
}

// The number, section and byte of the refusal, if it was refused.
fn refusal(answer: Result<Geometry, ImageFault>) -> Option<(u32, u32, usize)> {
    let fault = answer.err()?;
    Some((fault.number(), fault.section(), fault.byte()))
}

#[test]
fn each_fault_has_its_number_section_and_byte(rt: HostRuntime) -> Result<(), Fail> {
    for (i, case) in CASES.iter().enumerate() {
        let Case(edit, number, section, byte) = *case;
        let bytes = edited(rt.alloc(), edit)?;
        assert_eq!(rt;
            refusal(check(&bytes)),
            Some((number, section, byte)),
            "{}",
            i
        );
    }
    Ok(())
}

#[test]
fn the_smallest_and_the_largest(rt: HostRuntime) -> Result<(), Fail> {
    let small = Geometry {
        blocks: 1,
        pages: 1,
        life: 1,
    };
    let bytes = image_of(rt.alloc(), small)?;
    assert_eq!(rt; bytes.len(), 556);
    assert_eq!(rt; small.image_length(), Some(556));
    assert_eq!(rt; check(&bytes).ok(), Some(small));
    let large = Geometry {
        blocks: 4_096,
        pages: 64,
        life: 100_000,
    };
    assert_eq!(rt; large.image_length(), Some(136_331_296));
    assert_eq!(rt; Geometry { pages: 65, ..large }.image_length(), None);
    // the largest is in range: what is missing is the list of its erase counts
    let mut start = Vec::new(rt.alloc());
    for n in [3u32, 4_096, 64, 100_000, 4_096] {
        start.extend_from_slice(&n.to_le_bytes())?;
    }
    assert_eq!(rt; refusal(check(&start)), Some((7, 2, 20)));
    Ok(())
}

#[test]
fn the_lines_of_look(rt: HostRuntime) -> Result<(), Fail> {
    let heap = rt.alloc();
    let good = image_of(heap, SMALL)?;
    assert_eq!(rt;
        look(&good).to_string(heap)?.as_str(),
        "blocks 2 pages 2 life 100 erases 6"
    );
    assert_eq!(rt;
        look(&[]).to_string(heap)?.as_str(),
        "refused 7 section 1 byte 0"
    );
    let full = vec![in heap; 0u8; 65_536]?;
    assert_eq!(rt;
        look(&full).to_string(heap)?.as_str(),
        "refused 8 section 1 byte 0"
    );
    let long = vec![in heap; 0u8; 65_537]?;
    assert_eq!(rt; look(&long).to_string(heap)?.as_str(), "too long");
    Ok(())
}
