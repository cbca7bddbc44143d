// The fourth number of the layer, beside the device's block, page offset and sector: a logical block is a run of sectors, and which
// physical block holds it changes all the time, so one must never be passed for the other.

// The number of a logical block: sector n lies in logical block n div P.
#[derive(Clone, Copy, PartialEq, Eq, Debug)]
pub struct LogicalBlock(pub u32);
