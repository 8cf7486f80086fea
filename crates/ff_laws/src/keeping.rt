ghost use Rattle.std.specs.Prelude.{◌≡◌, ◌<◌, ℕ, ℤ, true, false, None, List, All, length, ⊤};
ghost use Rattle.std.specs.List.{AllByRecursion};
ghost use Rattle.std.specs.Str.{IsUtf8};
ghost use Rattle.ff_name.specs.Address.{IsRequest, IsWellSpelled};
ghost use Rattle.ff_name.specs.Spelling.{IsDomain};
ghost use Rattle.ff_name.specs.declared.urls.Url.{Url};
ghost use Rattle.ff_confinement.specs.Runs.{after};
ghost use Rattle.ff_confinement.specs.Turns.{KeepsOk, machine_of};
ghost use Rattle.ff_tree.specs.Spelled.{IsVar, AreParams, IsWellSpelledDoc, IsWellSpelledExpr};
ghost use Rattle.ff_tree.specs.declared.op.Op.{Op};
ghost use Rattle.ff_tree.specs.declared.tree.Doc.{Doc};
ghost use Rattle.ff_tree.specs.declared.tree.Expr.{Expr};
ghost use Rattle.ff_value.specs.Spelled.{IsCookieOp, IsWellSpelledInput};
ghost use Rattle.ff_value.specs.declared.input.Input.{Input};
ghost use Rattle.ff_value.specs.declared.ids.ActId.{ActId};
ghost use Rattle.ff_value.specs.declared.ids.NodeId.{NodeId};
ghost use Rattle.ff_value.specs.declared.ids.PageId.{PageId};
ghost use Rattle.ff_value.specs.declared.ids.WinId.{WinId};
ghost use Rattle.ff_value.specs.declared.reply.CookieOp.{CookieOp};
ghost use Rattle.ff_value.specs.declared.value.Code.{Code};
ghost use Rattle.ff_value.specs.declared.value.Val.{Val};
ghost use Rattle.ff_term.specs.Running.{Running, Evaluation, is_value};
ghost use Rattle.ff_machine.specs.declared.records.Dst.{Dst};
ghost use Rattle.ff_machine.specs.Nodes as nodes;
ghost use Rattle.ff_machine.specs.Windows as windows;
ghost use Rattle.ff_machine.specs.Net as net;
ghost use Rattle.ff_machine.specs.Stores as stores;
ghost use Rattle.ff_machine.specs.Stores.{Stores};
ghost use Rattle.ff_machine.specs.Operators.{operate};
ghost use Rattle.ff_machine.specs.Reduction.{Red, with_acts, make_tree};
ghost use Rattle.ff_machine.specs.State.{State, Task};
ghost use Rattle.ff_machine.specs.Inputs.{begin};
ghost use Rattle.ff_machine.specs.Turns.{turn};
ghost use Rattle.ff_machine.specs.Machine.{reactor, browser};
ghost use Rattle.ff_machine.specs.Alone.{IsDst};
ghost use Rattle.ff_machine.specs.References.{Made, Grows, made, DstRefers, StoresRefer};
ghost use Rattle.ff_machine.specs.Valid.{IsCode, IsVal, IsRunning, IsStores, IsTask, IsQuiet, IsState};
ghost use Rattle.ff_laws.specs.Keeps.{Keeps, KeepsIfMade};
ghost use Rattle.ff_laws.specs.Reduced.{KeepsUnlessFault, MovesUnlessFault};

/// What is valid by counts of what was made is valid by greater ones.
pub fn counts_only_grow()
    ensures value { (m k : Made) → Grows m k → (v : Val) → IsVal m v → IsVal k v }
    ensures running { (m k : Made) → Grows m k → (e : Running) → IsRunning m e → IsRunning k e }
    ensures stores { (m k : Made) → Grows m k → (s : Stores) → StoresRefer m s → StoresRefer k s }
    ensures task { (s t : Stores) → Grows (made s) (made t) → (task : Task)
        → (windows.page_at t.windows task.page).act ≡ (windows.page_at s.windows task.page).act
        → IsTask s task → IsTask t task }
{}

/// Variables that are declared or assigned, and activations for calls, keep stores valid.
pub fn variables_keep_stores_valid()
    ensures declared { (s : Stores) (a : ActId) (x : List ℕ) (v : Val) → IsStores s
        → a.0 < length s.windows.acts → IsVar x → IsVal (made s) v
        → windows.declare_fault s.windows.acts a x ≡ None
        → Keeps s (with_acts s (windows.set_var s.windows.acts a x v)) }
    ensures assigned { (s : Stores) (a : ActId) (x : List ℕ) (v : Val) → IsStores s
        → IsVal (made s) v → windows.assign_fault (windows.holder s.windows.acts a x) ≡ None
        → Keeps s (with_acts s (windows.assigned s.windows.acts (windows.holder s.windows.acts a x)
        x v)) }
    ensures called { (s : Stores) (parent : ActId) (params : List (List ℕ)) (args : List Val)
        → IsStores s → parent.0 < length s.windows.acts → AreParams params
        → All (IsVal (made s)) args → windows.call_fault s.windows.acts (length params) ≡ None
        → Keeps s (with_acts s (windows.with_act s.windows.acts parent params args)) }
{}

/// Requests that are sent or answered, and cookies, keep stores valid.
pub fn requests_and_cookies_keep_stores_valid()
    ensures sent { (s : Stores) (domain uri body : List ℕ) (to : Dst) → IsStores s → IsDomain domain
        → IsRequest uri → IsDst to → DstRefers (made s) to → stores.has_ask_room s domain ≡ true
        → Keeps s (stores.sent s domain uri body to).after }
    ensures answered { (s : Stores) (domain : List ℕ) (k : ℕ) → IsStores s
        → Keeps s (record s { requests = net.answered s.requests domain k }) }
    ensures cookies { (s : Stores) (domain : List ℕ) (entries : List CookieOp) → IsStores s
        → IsDomain domain → AllByRecursion IsCookieOp entries
        → Keeps s (stores.put_cookies s domain entries) }
    ensures weighed { (s : Stores) (weight : ℕ) → IsStores s → stores.may_weigh s weight ≡ true
        → Keeps s (stores.weighed s weight) }
    ensures settled { (s : Stores) → IsStores s → Keeps s (stores.settle s).after }
{}

/// Texts, handlers, children that are inserted and trees that are made keep stores valid.
pub fn nodes_keep_stores_valid()
    ensures text { (s : Stores) (n : NodeId) (text : List ℕ) → IsStores s → n.0 < length s.nodes
        → IsUtf8 text → stores.may_weigh s (length text) ≡ true
        → Keeps s (stores.with_text s n text) }
    ensures handler { (s : Stores) (n : NodeId) (code : Code) → IsStores s → n.0 < length s.nodes
        → IsCode (made s) code → nodes.handler_fault s.nodes n code ≡ None
        → Keeps s (record s { nodes = nodes.handler_added s.nodes n code }) }
    ensures inserted { (s : Stores) (p c : NodeId) (at : ℤ) (place : ℕ) → IsStores s
        → p.0 < length s.nodes → c.0 < length s.nodes → nodes.insert_fault s.nodes p c at ≡ None
        → Keeps s (stores.insert s p c place).after }
    ensures tree { (s : Stores) (a : ActId) (doc : Doc) → IsStores s → a.0 < length s.windows.acts
        → IsWellSpelledDoc doc → KeepsUnlessFault s (make_tree s a doc) }
    ensures scripts { (page : PageId) (n : NodeId) (s : Stores) → IsStores s
        → page.0 < length s.windows.pages → Keeps s (stores.start page n s).after }
{}

/// Windows that open, load, go or close, and queues of scripts, keep stores valid.
pub fn windows_keep_stores_valid()
    ensures load { (s : Stores) (w : WinId) (u : Url) (docs : List Doc) → IsStores s
        → w.0 < length s.windows.windows → IsWellSpelled u → AllByRecursion IsWellSpelledDoc docs
        → KeepsIfMade s (stores.load s w u docs) }
    ensures opens { (s : Stores) (u : Url) → IsStores s → IsWellSpelled u
        → Keeps s (stores.opens s u).after }
    ensures go { (s : Stores) (w : WinId) (u : Url) → IsStores s → w.0 < length s.windows.windows
        → IsWellSpelled u → KeepsIfMade s (stores.go s w u) }
    ensures close { (s : Stores) (w : WinId) → IsStores s
        → Keeps s (stores.close_window s w).after }
    ensures filled { (s : Stores) (p : PageId) (slot : ℕ) (body : Expr) → IsStores s
        → p.0 < length s.windows.pages → IsWellSpelledExpr body
        → Keeps s (stores.fill_slot s p slot body) }
    ensures popped { (s : Stores) (p : PageId) → IsStores s → p.0 < length s.windows.pages
        → Keeps s (record s { windows = windows.popped s.windows p }) }
{}

/// Each operator, for a page that was made and with valid operands, keeps stores valid and gives a
/// valid value.
pub fn operators_keep_stores_valid()
    ensures { (s : Stores) (page : PageId) → IsStores s → page.0 < length s.windows.pages
        → (op : Op) (args : List Val) → All (IsVal (made s)) args
        → KeepsUnlessFault s (operate s page op args) }
{}

/// One reduction, for a page that was made, keeps stores and the evaluation valid.
pub fn a_reduction_keeps_stores_valid()
    ensures { (s : Stores) (page : PageId) (t : Evaluation) → IsStores s
        → page.0 < length s.windows.pages → t.base.0 < length s.windows.acts
        → IsRunning (made s) t.expr → is_value t.expr ≡ false → MovesUnlessFault s (Red s page t) }
{}

/// Taking a well spelled input keeps stores valid, and so does a turn whose tasks are valid.
pub fn inputs_and_turns_keep_stores_valid()
    ensures begin { (s : State) (i : Input) → IsStores s.stores → IsWellSpelledInput i
        → Keeps s.stores (begin s i).after.stores }
    ensures turn { (s : State) → IsStores s.stores → All (IsTask s.stores) s.tasks
        → Keeps s.stores (turn s).after.stores }
{}

/// Valid states stay valid, their tasks too: when a well spelled input is taken, at each turn, and
/// when an input is handled in however many turns. After a run over well spelled inputs the state
/// is valid, and nothing is left to do, to show or to spend.
pub fn states_stay_valid()
    ensures begin { (budget : ℕ) (s : State) (i : Input) → IsState budget s → IsWellSpelledInput i
        → IsState budget (begin s i).after }
    ensures turn { (budget : ℕ) (s : State) → IsState budget s → IsState budget (turn s).after }
    ensures reactor { (budget : ℕ) → KeepsOk (reactor budget) IsWellSpelledInput (IsState budget)
        (λ o. ⊤) }
    ensures handled { (budget most : ℕ) (s : State) (i : Input) → IsState budget s
        → IsWellSpelledInput i → IsState budget
        ((machine_of (reactor budget) most).handle s i).after }
    ensures run { (budget : ℕ) (is : List Input) → All IsWellSpelledInput is
        → IsState budget (after (browser budget) is) × IsQuiet (after (browser budget) is) }
{}
