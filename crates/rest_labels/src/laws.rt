//! What holds of every rest's labels. The function does nothing: its contract is the theorem.

ghost use Rattle.rest_labels.specs.Laws.{IsRestTied};

use label_search::Labels;

/// Where labels are tied to the worths of a class under some prices, those of a rest are tied to the rest's worths under the rest's prices:
/// a list of the rest has a worth exactly where it has a label that closes, and it closes with a thousand times its worth less the prices
/// of its items. The written-out lists have the same prices as the lists of the rest, whether a list may be begun now is seen in what its
/// first item stands for, and lists begin and go on as the heads say.
pub fn rest_is_tied<W: Labels>()
    ensures { (labels : W) → IsRestTied (W.labelling labels) (W.close_of labels) }
{}
