//! What holds of every certificate. The function does nothing: its contract is the theorem.

ghost use Rattle.plan_cert.specs.Laws.{ReadsBack};
ghost use Rattle.plan_cert.specs.declared.shape.Shape.{Shape as ShapeOf};

/// The tables of a certificate stand for it: what is written is read back. Each part has a price for each item and class of its pass,
/// prices of items are from -3 * 10^15 to 3 * 10^15, the marks are of items and classes that are there and have numbers of 32 bits, and
/// no two pools and no two groups have one number.
pub fn certificates_are_read_back()
    ensures { (shape : ShapeOf) → ReadsBack shape }
{}
