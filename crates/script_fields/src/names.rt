//! Tables of names.

ghost use Rattle.std.specs.Prelude.{◌≡◌, map};
ghost use Rattle.script_fields.specs.Names.{lookup, row};

/// What stands beside the first row with this name.
#[tactic(auto, using(crate::proofs::FieldLookup::goes_on, crate::proofs::FieldLookup::found, crate::proofs::FieldLookup::ended))]
pub fn lookup<T: Copy>(rows: &[(&[u8], T)], field: &[u8]) -> Option<T>
    ensures { result ≡ lookup (map row rows.now) field.now }
{
    for (name, value) in rows {
        if *name == field {
            return Some(*value);
        }
    }
    None
}
