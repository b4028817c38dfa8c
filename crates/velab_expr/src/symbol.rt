// How many names an item declares beside variables (IEEE 1364-2005, 4.10).
ghost use Rattle.std.specs.Prelude.{◌≡◌, length, List};
ghost use Rattle.vwords.specs.Words.{Text};
ghost use Rattle.vast.specs.NumberedTrees.{item_tree};
ghost use Rattle.velab_expr.specs.Symbols.{symbols_by};

use vast::module::ModuleItem;

/// How many parameters an item declares.
pub fn symbol_count(item: &ModuleItem) -> usize
    ensures { (words : List Text) → result ≡ length (symbols_by (item_tree words item.now)) }
{
    match item {
        ModuleItem::Parameters { settings, .. } => settings.len(),
        ModuleItem::Declaration { .. } => 0,
        ModuleItem::Events { .. } => 0,
        ModuleItem::Assignments { .. } => 0,
        ModuleItem::Initial { .. } => 0,
        ModuleItem::Always { .. } => 0,
        ModuleItem::Instances { .. } => 0,
    }
}
