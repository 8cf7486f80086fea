ghost use Rattle.std.specs.List.{AllByRecursion};
ghost use Rattle.std.specs.Prelude.{◌≡◌, ◌+◌, ◌<◌, ◌≤◌, ℕ, ℤ, true, Some, None, List, All, length, map, nat_abs, slice_get};
ghost use Rattle.ff_name.specs.declared.limits.TheConstants.{MOST_DEPTH};
ghost use Rattle.ff_tree.specs.Spelled.{AreParams, IsSpelledDoc, IsWellSpelledDoc, doc_depth, most};
ghost use Rattle.ff_tree.specs.declared.op.Op.{Op};
ghost use Rattle.ff_tree.specs.declared.tree.Doc.{Doc};
ghost use Rattle.ff_value.specs.declared.ids.ActId.{ActId};
ghost use Rattle.ff_value.specs.declared.ids.NodeId.{NodeId};
ghost use Rattle.ff_value.specs.declared.ids.PageId.{PageId};
ghost use Rattle.ff_value.specs.declared.value.Val.{Val};
ghost use Rattle.ff_machine.specs.Alone.{AreNodes};
ghost use Rattle.ff_machine.specs.Documents.{laid, laid_page, with_tree};
ghost use Rattle.ff_machine.specs.Nodes.{Node, has_room, insert_fault, joined};
ghost use Rattle.ff_machine.specs.Windows.{Activation, lookup, with_act, count_vars};
ghost use Rattle.ff_machine.specs.Stores.{Stores};
ghost use Rattle.ff_machine.specs.Operators.{operate};
ghost use Rattle.ff_machine.specs.References.{made};
ghost use Rattle.ff_machine.specs.Valid.{IsVal, IsStores, GivesVal};

/// In valid stores and for valid operands, the value of an operator is valid: its text is UTF-8,
/// its number has 64 bits, and it refers to what was made before or is the window that was opened.
pub fn an_operator_gives_a_valid_value()
    ensures { (s : Stores) (page : PageId) (o : Op) (args : List Val) → IsStores s
        → page.0 < length s.windows.pages → All (IsVal (made s)) args
        → GivesVal s (operate s page o args) }
{}

/// In the activation of a call, which is the last one, each parameter has the argument at its
/// place, and there are as many variables more as there are parameters.
pub fn a_call_declares_its_parameters()
    ensures value { (acts : List Activation) (env a : ActId) (params : List (List ℕ))
        (args : List Val) (i : ℕ) (x : List ℕ) (v : Val) → AreParams params → a.0 ≡ length acts
        → slice_get params i ≡ Some x → slice_get args i ≡ Some v
        → lookup (with_act acts env params args) a x ≡ Some v }
    ensures count { (acts : List Activation) (env : ActId) (params : List (List ℕ))
        (args : List Val) → AreParams params → length params ≡ length args
        → count_vars (with_act acts env params args) ≡ count_vars acts + length params }
{}

/// A tree that is made of a spelled document, or of a page's, leaves valid nodes where there is
/// room.
pub fn a_made_tree_leaves_valid_nodes()
    ensures tree { (nodes : List Node) (env : ActId) (d : Doc) → AreNodes nodes → IsWellSpelledDoc d
        → has_room nodes (laid env d).size ≡ true → AreNodes (with_tree nodes (laid env d)) }
    ensures page { (nodes : List Node) (page : PageId) (env : ActId) (ds : List Doc)
        → AreNodes nodes → AllByRecursion IsSpelledDoc ds → most (map doc_depth ds) ≤ MOST_DEPTH
        → has_room nodes (laid_page page env ds).size ≡ true
        → AreNodes (with_tree nodes (laid_page page env ds)) }
{}

/// A tree that is joined to another, where no fault forbids it, leaves valid nodes.
pub fn a_joined_tree_leaves_valid_nodes()
    ensures { (nodes : List Node) (p c : NodeId) (at : ℤ) → AreNodes nodes → p.0 < length nodes
        → c.0 < length nodes → insert_fault nodes p c at ≡ None
        → AreNodes (joined nodes p c (nat_abs at)) }
{}
