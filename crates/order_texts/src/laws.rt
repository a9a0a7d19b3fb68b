//! Laws of the lines of orders.
ghost use Rattle.std.specs.Prelude.{◌≡◌, ◌≤◌, length};
ghost use Rattle.oci_types.specs.Text.{Text};
ghost use Rattle.registry_orders.specs.declared.orders.Order.{Order};
ghost use Rattle.order_texts.specs.Lines.{Spells, SpellsNone};
ghost use Rattle.order_texts.specs.Stopping.{stop_line};

use crate::writing::LONGEST_LINE;

/// A text of 600 bytes or more is no order's line.
pub fn lines_are_short()
    ensures { (line : Text) → LONGEST_LINE ≤ length line → SpellsNone line }
{}

/// A text is the line of one order at most.
pub fn a_line_spells_one_order()
    ensures { (line : Text) (o p : Order) → Spells line o → Spells line p → o ≡ p }
{}

/// The line that asks a server to stop is no order's.
pub fn stop_is_no_order()
    ensures { SpellsNone stop_line }
{}
