//! Fields and columns compared.
#![tactic(auto)]

ghost use Rattle.std.specs.Prelude.{◌≡◌};
ghost use Rattle.std.specs.List.{list_all, zip};
ghost use Rattle.table_differences.specs.Differences as spec;

use vdv451_text::{Field, Head};

/// Whether two fields are of one kind and have one content.
fn same_field(given: &Field, made: &Field) -> bool
    ensures { result ≡ spec.same_field given.now made.now }
{
    match given {
        Field::Num(number) => match made {
            Field::Num(other) => *number == *other,
            _ => false,
        },
        Field::Text(text) => match made {
            Field::Text(other) => text.as_slice() == other.as_slice(),
            _ => false,
        },
        Field::Raw(bytes) => match made {
            Field::Raw(other) => bytes.as_slice() == other.as_slice(),
            _ => false,
        },
        Field::Empty => match made {
            Field::Empty => true,
            _ => false,
        },
    }
}

/// Whether each field is the same as the one at its place, as far as both lists go.
fn are_same_pairs(given: &[Field], made: &[Field]) -> bool
    ensures { result ≡ list_all (λ p. spec.same_field p.0 p.1) (zip given.now made.now) }
{
    given
        .iter()
        .zip(made)
        .all(|(field, other)| same_field(field, other))
}

/// Whether there are as many fields, each the same.
fn same_fields(given: &[Field], made: &[Field]) -> bool
    ensures { result ≡ spec.same_fields given.now made.now }
{
    given.len() == made.len() && are_same_pairs(given, made)
}

/// Whether there are as many fields, each the same but the one at a place.
fn same_beside(place: usize, given: &[Field], made: &[Field]) -> bool
    ensures { result ≡ spec.same_beside place given.now made.now }
{
    if given.len() != made.len() {
        return false;
    }
    if place >= given.len() {
        return are_same_pairs(given, made);
    }
    are_same_pairs(&given[..place], &made[..place])
        && are_same_pairs(&given[place + 1..], &made[place + 1..])
}

/// Whether two rows are the same, whatever stands at the place that is left aside, where there is one.
pub(crate) fn same_row(aside: Option<usize>, given: &[Field], made: &[Field]) -> bool
    ensures { result ≡ spec.same_row aside given.now made.now }
{
    match aside {
        None => same_fields(given, made),
        Some(place) => same_beside(place, given, made),
    }
}

/// Whether two columns have one name and one format.
fn same_head(given: &Head, made: &Head) -> bool
    ensures { result ≡ spec.same_head given.now made.now }
{
    given.name.as_slice() == made.name.as_slice()
        && given.format.as_slice() == made.format.as_slice()
}

/// Whether each column is the same as the one at its place, as far as both lists go.
fn are_same_columns(given: &[Head], made: &[Head]) -> bool
    ensures { result ≡ list_all (λ p. spec.same_head p.0 p.1) (zip given.now made.now) }
{
    given
        .iter()
        .zip(made)
        .all(|(head, other)| same_head(head, other))
}

/// Whether there are as many columns, each the same.
pub(crate) fn same_heads(given: &[Head], made: &[Head]) -> bool
    ensures { result ≡ spec.same_heads given.now made.now }
{
    given.len() == made.len() && are_same_columns(given, made)
}
