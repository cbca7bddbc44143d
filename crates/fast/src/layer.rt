// A layer of numbered sectors over one device of any kind.
//
// The layer of no sectors has no tables: that is what becomes of a device that the fit check refuses. A call answers by the checks first,
// in the order of `Refusal`, and a refused call changes nothing.
//
// Each call says twice what it does. The clauses `reply` and `after` are equations with the scheme's call, for every layer. The clause
// `law` says what that is worth: for every device, every arguments of format and every list of calls that lead to the layer before it, the
// layer after it is reached by one call more, and the law of runs holds of all of them with this reply.

ghost use Rattle.std.specs.Prelude.{◌≡◌, ◌*◌, ◌/◌, ◌%◌, ◌<◌, not, ◌&&◌, length, IfOk, IfErr, Some, None, OnOk};
ghost use Rattle.std.specs.Option.{option_map};
ghost use Rattle.flash.specs.Calls.{is_blank};
ghost use Rattle.scheme.specs.Law.{Begun, Lawful};
ghost use Rattle.scheme.specs.Ledger.{read, write, shown};
ghost use Rattle.scheme.specs.Runs.{sectors, format, call, worn, write_refusal};
ghost use Rattle.scheme.specs.Tables.{Tables as SchemeTables};
ghost use Rattle.scheme.specs.Work.{seen, line, each, do_erase};
ghost use Rattle.fast.specs.Leaves.{at, is_first};
ghost use Rattle.fast.specs.Meaning.{view_of};
ghost use Rattle.fast.specs.Roles.{role_told};
ghost use Rattle.fast.specs.Told.{meant, layer_of, role_meant, started, found_told, read_told, write_told, admitted_told};

use crate::fit::{Plan, fit};
use crate::refusal::{Refusal, addressed};
use crate::roles::Role;
use crate::start::start_tables;
use crate::steps::WriteKind;
use crate::steps::copies::vacant;
use crate::steps::writes::write_accepted;
use crate::tables::{Sizes, Tables};
use crate::wear::worn;
use flash::device::{Device, SECTOR_SIZE};
use flash::numbers::{Block, PageOffset, Sector};
use std::alloc::{AllocError, Global};

#[derive(Drop)]
pub struct Layer<D: Device> {
    device: D,
    tables: Option<Tables>,
}

// What a read finds of a sector.
#[derive(Clone, Copy, PartialEq, Eq, Debug)]
pub enum Found {
    Bytes,
    NeverWritten,
}

// Erases every block once, in rising order. A `for` over the numbers, which are all that a device knows its blocks by.
fn erase_all<D: Device>(device: &mut D)
    ensures { (t : SchemeTables) → at (D.Device.flash device.new) t ≡ (each do_erase 0 (D.Device.flash device.old).blocks (at (D.Device.flash device.old) t)).after }
{
    for b in 0..device.blocks() {
        let _ = device.erase(Block(b));
    }
}

// Fills the buffer with what the device shows of a page, and with 0xFF if that is blank or the device refuses.
fn show<D: Device>(
    device: &D,
    block: Block,
    page: PageOffset,
    buffer: &mut [u8; SECTOR_SIZE],
) -> Found
    ensures { found_told result buffer.new ≡ shown (line (seen (D.Device.flash device.now) block.0 page.0)) }
{
    // a `match`, since what a refusal does to the buffer is no value that a method could give
    match device.read(block, page, buffer) {
        Ok(Some(_)) => Found::Bytes,
        Ok(None) => Found::NeverWritten,
        Err(_) => {
            buffer.fill(0xFF);
            Found::NeverWritten
        }
    }
}

// Which kind a write is, by what the device shows of the sector's data page.
fn kind_of<D: Device>(device: &D, block: Block, page: PageOffset) -> WriteKind
    ensures { is_first result ≡ is_blank (seen (D.Device.flash device.now) block.0 page.0) }
{
    if vacant(device, block, page) {
        WriteKind::First
    } else {
        WriteKind::Overwrite
    }
}

// Whether a write could wear out a block: an overwrite makes up to min(P, L) + 1 erases, a first write none.
fn wears_out<D: Device>(device: &D, tables: &Tables, kind: WriteKind) -> bool
    ensures { result ≡ not (is_first kind) && worn (meant (D.Device.flash device.now) (Some tables.now)) }
{
    match kind {
        WriteKind::First => false,
        WriteKind::Overwrite => worn(device, tables.sizes.pages.min(tables.sizes.logical) + 1),
    }
}

// Whether a write may go on; if so, which kind it is.
fn admit<D: Device>(
    device: &D,
    tables: &Tables,
    sector: Sector,
    bytes: &[u8],
) -> Result<WriteKind, Refusal>
    ensures refusal { admitted_told result ≡ write_refusal (meant (D.Device.flash device.now) (Some tables.now)) sector.0 bytes.now }
    ensures known { OnOk result (sector.0 < tables.now.sizes.logical * tables.now.sizes.pages) }
    ensures left { OnOk result (tables.now.next < 0xFFFFFFFF) }
    ensures found { IfOk result (λ kind. is_first kind ≡ is_blank (seen (D.Device.flash device.now) ((view_of tables.now).data_block (sector.0 / tables.now.sizes.pages)) (sector.0 % tables.now.sizes.pages))) }
{
    let sizes = &tables.sizes;
    addressed(sector, sizes.sectors(), bytes.len())?;
    let (c, o) = sizes.split(sector);
    let kind = kind_of(device, tables.map[c.0 as usize], o);
    if wears_out(device, tables, kind) {
        return Err(Refusal::BlocksWornOut);
    }
    if tables.next == 0xFFFF_FFFF {
        return Err(Refusal::StampsUsedUp);
    }
    Ok(kind)
}

impl<D: Device> Layer<D> {
    // Formats a device: every block is erased once. A device that does not fit is left alone, and the layer has no sectors. Want of memory
    // is found before the first erase, and gives the device back as it was.
    pub fn format(heap: Global, device: D, plan: Plan) -> Result<Layer<D>, (D, AllocError)>
        ensures after { IfOk result (λ y. layer_of D.Device.flash y ≡ format (started (D.Device.flash device) plan.logical plan.random plan.first_stamp)) }
        ensures law { IfOk result (λ y. Begun (started (D.Device.flash device) plan.logical plan.random plan.first_stamp) (layer_of D.Device.flash y)) }
        ensures untouched { IfErr result (λ e. e.0 ≡ device) }
    {
        if fit(&device, plan).is_err() {
            return Ok(Layer {
                device,
                tables: None,
            });
        }
        let sizes = Sizes {
            pages: device.pages(),
            logical: plan.logical,
            random: plan.random,
            blocks: device.blocks(),
        };
        // a `match`, since a closure for the error would take the device that the other case needs
        match start_tables(heap, sizes, plan.first_stamp) {
            Err(e) => Err((device, e)),
            Ok(tables) => {
                let mut device = device;
                erase_all(&mut device);
                Ok(Layer {
                    device,
                    tables: Some(tables),
                })
            }
        }
    }

    // The device below, for looking at: only the layer's own calls may change it.
    pub fn device(&self) -> &D
        ensures { result.now ≡ self.now.device }
    {
        &self.device
    }

    // The device given up: the sectors stay on it, but the tables that find them are gone.
    pub fn into_device(self) -> D
        ensures { result ≡ self.device }
    {
        let Layer { device, tables } = self;
        drop(tables);
        device
    }

    // How many sectors there are.
    pub fn sectors(&self) -> u32
        ensures { result ≡ sectors (layer_of D.Device.flash self.now) }
    {
        self.tables
            .as_ref()
            .map_or(0, |tables| tables.sizes.sectors())
    }

    // The role of a block, if the layer has sectors and the device such a block.
    pub fn role(&self, block: Block) -> Option<Role>
        ensures { option_map role_told result ≡ role_meant self.now.tables block.0 }
    {
        self.tables
            .as_ref()
            .filter(|tables| block.0 < tables.sizes.blocks)
            .map(|tables| tables.role(block))
    }

    // Reads a sector into the buffer, which is filled with 0xFF where it was never written.
    pub fn read(&self, sector: Sector, buffer: &mut [u8]) -> Result<Found, Refusal>
        ensures reply { read_told result buffer.new ≡ (call (layer_of D.Device.flash self.now) (read sector.0 buffer.old)).reply }
        ensures law { Lawful (layer_of D.Device.flash self.now) (read sector.0 buffer.old) (read_told result buffer.new) (layer_of D.Device.flash self.now) }
    {
        let tables = self.tables.as_ref().ok_or(Refusal::NoSuchSector)?;
        let sizes = &tables.sizes;
        addressed(sector, sizes.sectors(), buffer.len())?;
        let (c, o) = sizes.split(sector);
        let (block, page) = tables.place(c, o);
        Ok(show(&self.device, block, page, buffer.as_mut_array().unwrap()))
    }

    // Writes a sector. Answers the blocks erased and the pages copied for it.
    pub fn write(&mut self, sector: Sector, bytes: &[u8]) -> Result<(u32, u32), Refusal>
        ensures reply { write_told result bytes.now ≡ (call (layer_of D.Device.flash self.old) (write sector.0 bytes.now)).reply }
        ensures after { layer_of D.Device.flash self.new ≡ (call (layer_of D.Device.flash self.old) (write sector.0 bytes.now)).after }
        ensures law { Lawful (layer_of D.Device.flash self.old) (write sector.0 bytes.now) (write_told result bytes.now) (layer_of D.Device.flash self.new) }
    {
        let tables = self.tables.take().ok_or(Refusal::NoSuchSector)?;
        match admit(&self.device, &tables, sector, bytes) {
            Err(refusal) => {
                self.tables = Some(tables);
                Err(refusal)
            }
            Ok(kind) => {
                let step = write_accepted(&mut self.device, tables, kind, sector, bytes);
                self.tables = Some(step.tables);
                Ok((step.erases, step.copies))
            }
        }
    }
}
