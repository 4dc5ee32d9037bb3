//! The properties of blocks.

ghost use Rattle.std.specs.Prelude.{◌≡◌, position};
ghost use Rattle.script_fields.specs.Operands.{property, add_property, props, is_plus};
ghost use Rattle.script_fields.specs.Properties.{has_property, with_property, props_text};

use crate::fault::FaultKind;
use crate::names::lookup;
use itm_types::Props;

/// One property of a block.
#[derive(Clone, Copy)]
enum Property {
    NoAbort,
    NoIrrevocable,
    GoesIrrevocable,
}

/// The properties, by name.
const PROPERTIES: [(&[u8], Property); 3] = [
    (b"pr_hasNoAbort", Property::NoAbort),
    (b"pr_hasNoIrrevocable", Property::NoIrrevocable),
    (b"pr_doesGoIrrevocable", Property::GoesIrrevocable),
];

/// The property of this name.
#[tactic(auto, unfolding(crate::specs::Operands::property))]
fn named(name: &[u8]) -> Option<Property>
    ensures { result ≡ property name.now }
{
    lookup(&PROPERTIES, name)
}

fn has_property(props: Props, property: Property) -> bool
    ensures { result ≡ has_property props property }
{
    match property {
        Property::NoAbort => props.no_abort,
        Property::NoIrrevocable => props.no_irrevocable,
        Property::GoesIrrevocable => props.goes_irrevocable,
    }
}

fn with_property(props: Props, property: Property) -> Props
    ensures { result ≡ with_property props property }
{
    match property {
        Property::NoAbort => Props {
            no_abort: true,
            ..props
        },
        Property::NoIrrevocable => Props {
            no_irrevocable: true,
            ..props
        },
        Property::GoesIrrevocable => Props {
            goes_irrevocable: true,
            ..props
        },
    }
}

fn add_property(props: Props, property: Option<Property>) -> Result<Props, FaultKind>
    ensures { result ≡ add_property props property }
{
    match property {
        Some(property) if !has_property(props, property) => Ok(with_property(props, property)),
        _ => Err(FaultKind::Operand),
    }
}

fn plus_at(text: &[u8]) -> Option<usize>
    ensures { result ≡ position is_plus text.now }
{
    text.iter().position(|b| *b == b'+')
}

/// The properties of a block: `-`, or names with `+` between them, none of them twice.
#[tactic(auto, unfolding(crate::specs::Operands::props), using(crate::proofs::NamedProperties::name_added, crate::proofs::NamedProperties::name_refused, crate::proofs::NamedProperties::name_last))]
pub fn props(field: &[u8]) -> Result<Props, FaultKind>
    ensures { result ≡ props field.now }
{
    let mut props = Props {
        no_abort: false,
        no_irrevocable: false,
        goes_irrevocable: false,
    };
    if field == b"-".as_slice() {
        return Ok(props);
    }
    let mut rest = field;
    while let Some(end) = plus_at(rest) {
        let (name, _) = rest.split_at(end);
        let (_, after) = rest.split_at(end + 1);
        props = add_property(props, named(name))?;
        rest = after;
    }
    add_property(props, named(rest))
}

/// How properties are written: their names in order with `+` between them, or `-`.
pub fn props_text(props: Props) -> &'static str
    ensures { result.now ≡ props_text props }
{
    match (props.no_abort, props.no_irrevocable, props.goes_irrevocable) {
        (false, false, false) => "-",
        (true, false, false) => "pr_hasNoAbort",
        (false, true, false) => "pr_hasNoIrrevocable",
        (false, false, true) => "pr_doesGoIrrevocable",
        (true, true, false) => "pr_hasNoAbort+pr_hasNoIrrevocable",
        (true, false, true) => "pr_hasNoAbort+pr_doesGoIrrevocable",
        (false, true, true) => "pr_hasNoIrrevocable+pr_doesGoIrrevocable",
        (true, true, true) => "pr_hasNoAbort+pr_hasNoIrrevocable+pr_doesGoIrrevocable",
    }
}
