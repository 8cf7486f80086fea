//! Nothing is lost in what is saved.
ghost use Rattle.std.specs.Prelude.{◌≡◌, All, List, Some};
ghost use Rattle.ff_lattice.specs.Order.{Order};
ghost use Rattle.ff_machine.specs.Alone.{AreNodes, AreRequests};
ghost use Rattle.ff_machine.specs.Net.{Jar, Requests};
ghost use Rattle.ff_machine.specs.Nodes.{Node};
ghost use Rattle.ff_machine.specs.Stores.{Stores};
ghost use Rattle.ff_machine.specs.Valid.{IsStores};
ghost use Rattle.ff_machine.specs.Windows.{Windows};
ghost use Rattle.ff_records.specs.Records.{node_recs, windows_recs, cookie_recs, ask_recs};
ghost use Rattle.ff_saved_rows.specs.Drafting.{no_recs, added_all};
ghost use Rattle.ff_saved_rows.specs.Recs.{stores_recs};
ghost use Rattle.ff_saved_rows.specs.Rows.{IsRow, stores_rows};

/// Valid stores of a browser that have the same records are the same, each by itself and all
/// together, where the same pages count as touched.
pub fn equal_records_are_of_equal_stores()
    ensures nodes { (a b : List Node) → AreNodes a → AreNodes b → node_recs a ≡ node_recs b
        → a ≡ b }
    ensures windows { (a b : Windows) → windows_recs a ≡ windows_recs b → a ≡ b }
    ensures cookies { (a b : Jar) → cookie_recs a ≡ cookie_recs b → a ≡ b }
    ensures requests { (a b : Requests) → AreRequests a → AreRequests b → ask_recs a ≡ ask_recs b
        → a ≡ b }
    ensures stores { (s t : Stores) → IsStores s → IsStores t → s.touched ≡ t.touched
        → stores_recs s ≡ stores_recs t → s ≡ t }
{}

/// The rows of the records of valid stores are well spelled, with numbers of 32 bits, and give
/// these records where they are gathered one after another.
pub fn rows_of_valid_stores_are_rows()
    ensures rows { (order : Order) (s : Stores) → IsStores s
        → All (IsRow order) (stores_rows (stores_recs s)) }
    ensures again { (s : Stores) → IsStores s
        → added_all no_recs (stores_rows (stores_recs s)) ≡ Some (stores_recs s) }
{}
