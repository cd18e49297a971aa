//! Laws of settled cells and items.

ghost use Rattle.causal_model.specs.Laws.Cells.{CellOfOneMore, CounterCellOfOneMore, CellIsMoved, OtherCellsAreZero, NoItemsYet, ItemsAreCells, ItemsAreFilled, ItemsRise, RisingItemsAreApart, SameCellsSameLength, SameCellsSameList};

/// What one message more makes of a cell, from the cell and the log alone, and the same step by step.
pub fn cells_of_one_message_more()
    ensures cell { CellOfOneMore }
    ensures counter { CounterCellOfOneMore }
    ensures moved { CellIsMoved }
    ensures other { OtherCellsAreZero }
{}

/// The settled items are a map in its one order, of exactly the cells that have a mark or a sum.
pub fn items_are_the_cells()
    ensures none { NoItemsYet }
    ensures cells { ItemsAreCells }
    ensures filled { ItemsAreFilled }
    ensures rise { ItemsRise }
{}

/// Maps of items with equal cells are as long as each other, and equal where they are in the one order.
pub fn items_with_equal_cells_are_equal()
    ensures apart { RisingItemsAreApart }
    ensures length { SameCellsSameLength }
    ensures list { SameCellsSameList }
{}
