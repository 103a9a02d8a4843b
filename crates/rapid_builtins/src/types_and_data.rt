//! The predefined types and data (RAPID Instructions, Functions and Data types; RAPID Overview, error recovery).

ghost use Rattle.std.specs.Prelude.{◌≡◌, ◌++◌, map};
ghost use Rattle.rapid_builtins.specs.Names.{data_rows, is_predefined, predefined_of, type_rows};

use crate::functions::function;
use crate::instructions::instruction;
use crate::table::meant_by;
use rapid_model::Predefined;

/// The types, then the data.
static TYPES_AND_DATA: [(&[u8], Predefined); 54] = [
    (b"num", Predefined::Num),
    (b"errnum", Predefined::ErrNum),
    (b"dionum", Predefined::DioNum),
    (b"bool", Predefined::Bool),
    (b"string", Predefined::String),
    (b"robjoint", Predefined::RobJoint),
    (b"extjoint", Predefined::ExtJoint),
    (b"jointtarget", Predefined::JointTarget),
    (b"speeddata", Predefined::SpeedData),
    (b"tasks", Predefined::Tasks),
    (b"intnum", Predefined::IntNum),
    (b"syncident", Predefined::SyncIdent),
    (b"shapedata", Predefined::ShapeData),
    (b"wztemporary", Predefined::WzTemporary),
    (b"wzstationary", Predefined::WzStationary),
    (b"signaldi", Predefined::SignalDi),
    (b"signaldo", Predefined::SignalDo),
    (b"v5", Predefined::V5),
    (b"v10", Predefined::V10),
    (b"v20", Predefined::V20),
    (b"v30", Predefined::V30),
    (b"v40", Predefined::V40),
    (b"v50", Predefined::V50),
    (b"v60", Predefined::V60),
    (b"v80", Predefined::V80),
    (b"v100", Predefined::V100),
    (b"v150", Predefined::V150),
    (b"v200", Predefined::V200),
    (b"v300", Predefined::V300),
    (b"v400", Predefined::V400),
    (b"v500", Predefined::V500),
    (b"v600", Predefined::V600),
    (b"v800", Predefined::V800),
    (b"v1000", Predefined::V1000),
    (b"v1500", Predefined::V1500),
    (b"v2000", Predefined::V2000),
    (b"v2500", Predefined::V2500),
    (b"v3000", Predefined::V3000),
    (b"v4000", Predefined::V4000),
    (b"v5000", Predefined::V5000),
    (b"v6000", Predefined::V6000),
    (b"v7000", Predefined::V7000),
    (b"vmax", Predefined::VMax),
    (b"fine", Predefined::Fine),
    (b"tool0", Predefined::Tool0),
    (b"wobj0", Predefined::Wobj0),
    (b"low", Predefined::Low),
    (b"high", Predefined::High),
    (b"ERR_DIVZERO", Predefined::ErrDivZero),
    (b"ERR_STRTOOLNG", Predefined::ErrStrTooLng),
    (b"ERR_ALRDYCNT", Predefined::ErrAlrdyCnt),
    (b"ERR_UNKINO", Predefined::ErrUnkIno),
    (b"ERR_INOMAX", Predefined::ErrINoMax),
    (b"ERRNO", Predefined::ErrNo),
];

/// The type or datum with a name; `None` exactly for other names. Names are case-insensitive (RAPID Instructions,
/// Functions and Data types; RAPID Overview, error recovery, for the error numbers).
pub fn predefined(name: &[u8]) -> Option<Predefined>
    ensures { result ≡ predefined_of name.now }
{
    meant_by(&TYPES_AND_DATA, name)
}

/// The names of the types and data, and what each stands for.
pub fn predefined_rows() -> &'static [(&'static [u8], Predefined)]
    ensures { map (λ row. (row.0.now, row.1)) result.now ≡ type_rows ++ data_rows }
{
    &TYPES_AND_DATA
}

/// Whether a name is predefined: the name of an instruction, a function, a type or a datum. Names are case-insensitive
/// (RAPID Kernel, identifiers).
pub fn is_predefined(name: &[u8]) -> bool
    ensures { result ≡ is_predefined name.now }
{
    instruction(name).is_some() || function(name).is_some() || predefined(name).is_some()
}
