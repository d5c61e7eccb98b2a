//! What holds of all covers of duties. The function does nothing: its contract is the theorem.

ghost use Rattle.std.specs.Prelude.{List};
ghost use Rattle.plan_core.specs.declared.Price.{Price};
ghost use Rattle.mark_cover.specs.Covers.{CoverIsPaid};
ghost use Rattle.duty_network.specs.Duties.{DutyFacts, duties};
ghost use Rattle.duty_network.specs.Ranges.{NetFits};
ghost use Rattle.label_cover.specs.Marked.{duty_marking};

/// A cover of duties with class prices of at least 0 implies that prices are paid: no lawful duty of a class has a value below minus the
/// class price. It holds of every list of marks, whoever made them, and of all prices.
pub fn duty_cover_is_paid()
    ensures { (d : DutyFacts) (prices : List Price) → NetFits d → CoverIsPaid (duty_marking d prices) (duties d) prices }
{}
