//! The tests of an instruction's fields.
ghost use Rattle.std.specs.Prelude.{◌≡◌, is_ok, IfOk, IfErr};
ghost use Rattle.mm_base.specs.Id.{is_id};
ghost use Rattle.mm_memory.specs.Instruction.{kind_tested, code_tested, type_asked, store_asked, size_asked};
ghost use Rattle.mm_memory.specs.Instruction.{channel_asked, parsed};
ghost use Rattle.mm_memory.specs.declared.fault.Fault.TheVariants.{BadId};

use crate::fault::Fault;
use crate::instruction::StoreChange::{Begin, DeleteContent};
use crate::instruction::{Action, Blocks, Instruction, RouteChange, StoreChange, StoreConfig};
use mm_base::{Kind, MAX_APID, MAX_CHANNEL, StoreId};
use mm_st15::{Channel, Configuration, ReportType, Row, Size, Target, TimeLimit, TimeRange};

// The identifier that these octets are.
pub(crate) fn id_of(octets: [u8; 8]) -> Result<StoreId, Fault>
    ensures found { is_ok result ≡ is_id octets }
    ensures id { IfOk result (λ id. id ≡ octets) }
    ensures bad { IfErr result (λ e. e ≡ BadId) }
{
    match StoreId::of_field(octets) {
        Ok(id) => Ok(id),
        Err(_) => Err(Fault::BadId),
    }
}

// The kind with this code.
fn kind_of(code: u8) -> Result<Kind, Fault>
    ensures { result ≡ kind_tested code }
{
    match Kind::of_code(code) {
        Ok(kind) => Ok(kind),
        Err(_) => Err(Fault::BadEnum),
    }
}

fn apid_of(apid: u16) -> Result<u16, Fault>
    ensures { result ≡ code_tested apid MAX_APID }
{
    if apid > MAX_APID {
        Err(Fault::BadEnum)
    } else {
        Ok(apid)
    }
}

fn channel_of(channel: u8) -> Result<u8, Fault>
    ensures { result ≡ code_tested channel MAX_CHANNEL }
{
    if channel > MAX_CHANNEL {
        Err(Fault::BadEnum)
    } else {
        Ok(channel)
    }
}

// An instruction, or the first test that it fails: the identifier's, and then that of its other fields.
pub(crate) fn parsed(octets: [u8; 8], action: Result<Action, Fault>) -> Result<Instruction, Fault>
    ensures { result ≡ parsed octets action }
{
    let id = id_of(octets)?;
    let action = action?;
    Ok(Instruction { id, action })
}

// The change of a store's report types that these fields ask for.
fn type_action(change: RouteChange, fields: &ReportType) -> Result<Action, Fault>
    ensures { result ≡ type_asked change fields.now }
{
    let row = Row {
        apid: apid_of(fields.apid)?,
        service: fields.service,
        subtype: fields.subtype,
    };
    Ok(Action::Route(change, row))
}

// The creation of a store that these fields ask for.
fn store_action(fields: &Configuration) -> Result<Action, Fault>
    ensures { result ≡ store_asked fields.now }
{
    let kind = kind_of(fields.kind)?;
    let channel = channel_of(fields.channel)?;
    let size = Blocks::of(fields.size)?;
    Ok(Action::Create(StoreConfig {
        size,
        kind,
        channel,
    }))
}

fn size_action(fields: &Size) -> Result<Action, Fault>
    ensures { result ≡ size_asked fields.now }
{
    let size = Blocks::of(fields.size)?;
    Ok(Action::Change(StoreChange::Resize(size)))
}

fn channel_action(fields: &Channel) -> Result<Action, Fault>
    ensures { result ≡ channel_asked fields.now }
{
    let channel = channel_of(fields.channel)?;
    Ok(Action::Change(StoreChange::SetChannel(channel)))
}

// The fields of an instruction, as they came.
pub(crate) trait Validate: Copy {
    // What the request adds to them.
    type Context: Copy;

    ghost use Rattle.mm_memory.specs.Instruction.{Parsed};

    // The instruction that they are, or the first test that they fail.
    ghost validated: { Self.Context → Self → Parsed };

    fn validate(&self, context: Self::Context) -> Result<Instruction, Fault>
        ensures { result ≡ Self.validated context self.now };
}

impl Validate for Target {
    type Context = Action;

    ghost use Rattle.std.specs.Prelude.{Ok};
    ghost use Rattle.mm_memory.specs.Instruction.{parsed};

    ghost validated = { λ action target. parsed target.id (Ok action) };

    fn validate(&self, action: Action) -> Result<Instruction, Fault> {
        parsed(self.id, Ok(action))
    }
}

impl Validate for ReportType {
    type Context = RouteChange;

    ghost use Rattle.mm_memory.specs.Instruction.{parsed, type_asked};

    ghost validated = { λ change fields. parsed fields.id (type_asked change fields) };

    fn validate(&self, change: RouteChange) -> Result<Instruction, Fault> {
        parsed(self.id, type_action(change, self))
    }
}

impl Validate for TimeRange {
    type Context = ();

    ghost use Rattle.mm_memory.specs.Instruction.{parsed, range_asked};

    ghost validated = { λ _ range. parsed range.id (range_asked range) };

    fn validate(&self, _context: ()) -> Result<Instruction, Fault> {
        parsed(self.id, Ok(Action::Change(Begin(self.from, self.to))))
    }
}

impl Validate for TimeLimit {
    type Context = ();

    ghost use Rattle.mm_memory.specs.Instruction.{parsed, limit_asked};

    ghost validated = { λ _ fields. parsed fields.id (limit_asked fields) };

    fn validate(&self, _context: ()) -> Result<Instruction, Fault> {
        parsed(self.id, Ok(Action::Change(DeleteContent(self.limit))))
    }
}

impl Validate for Configuration {
    type Context = ();

    ghost use Rattle.mm_memory.specs.Instruction.{parsed, store_asked};

    ghost validated = { λ _ fields. parsed fields.id (store_asked fields) };

    fn validate(&self, _context: ()) -> Result<Instruction, Fault> {
        parsed(self.id, store_action(self))
    }
}

impl Validate for Size {
    type Context = ();

    ghost use Rattle.mm_memory.specs.Instruction.{parsed, size_asked};

    ghost validated = { λ _ fields. parsed fields.id (size_asked fields) };

    fn validate(&self, _context: ()) -> Result<Instruction, Fault> {
        parsed(self.id, size_action(self))
    }
}

impl Validate for Channel {
    type Context = ();

    ghost use Rattle.mm_memory.specs.Instruction.{parsed, channel_asked};

    ghost validated = { λ _ fields. parsed fields.id (channel_asked fields) };

    fn validate(&self, _context: ()) -> Result<Instruction, Fault> {
        parsed(self.id, channel_action(self))
    }
}
