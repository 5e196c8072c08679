//! Laws of the nodes of a tree.

ghost use Rattle.std.specs.Prelude.{◌≡◌, Some};
ghost use Rattle.node_tree.specs.Nodes.{Branch};
ghost use Rattle.page_tree.specs.Members.{IsIn};
ghost use Rattle.page_tree.specs.Pages.{PageRow};
ghost use Rattle.page_tree.specs.Zippers.{Zipper, zippers, parent_of, children_of, ancestors, below, earlier, later};

/// Of the nodes of a tree: one is the parent of another exactly where that one is among its children; an ancestor exactly
/// where that one stands below it; and a sibling before it exactly where that one stands after it.
pub fn relation_law()
    ensures child { (tree : Branch PageRow) (z p : Zipper) → IsIn z (zippers tree) → parent_of z ≡ Some p → IsIn z (children_of p) }
    ensures parent { (z p : Zipper) → IsIn z (children_of p) → parent_of z ≡ Some p }
    ensures below { (tree : Branch PageRow) (z q : Zipper) → IsIn z (zippers tree) → IsIn q (ancestors z) → IsIn z (below q) }
    ensures ancestor { (z q : Zipper) → IsIn z (below q) → IsIn q (ancestors z) }
    ensures later { (z q : Zipper) → IsIn q (earlier z) → IsIn z (later q) }
    ensures earlier { (z q : Zipper) → IsIn z (later q) → IsIn q (earlier z) }
{}
