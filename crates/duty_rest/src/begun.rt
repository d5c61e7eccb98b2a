//! Heads as what the columns of a problem begin with.

ghost use Rattle.std.specs.Prelude.{◌≡◌, IfOk};
ghost use Rattle.duty_rest.specs.Rest.{begun_of};

use crate::head::DutyHead;
use cover_rest::Begun;
use plan_core::{Memory, Seq};
use std::alloc::Global;

/// The heads of duties as what columns begin with: pieces are the items.
pub(crate) fn begun_columns(alloc: Global, heads: &[DutyHead]) -> Result<Seq<Begun>, Memory>
    ensures { IfOk result (λ begun. begun ≡ begun_of heads.now) }
{
    let mut begun = Seq::new(alloc);
    for head in heads {
        begun.push(Begun {
            class: head.class,
            items: head.pieces.with_items(head.pieces.as_slice())?,
            finished: head.finished,
        })?;
    }
    Ok(begun)
}
