ghost use Rattle.std.specs.Prelude.{◌≡◌, ◌↔◌, ℕ, List, Option, Some, IsTrue};
ghost use Rattle.ff_name.specs.Address.{IsRequest, Spells};
ghost use Rattle.ff_name.specs.Reading.{is_domain, is_name, is_request, read_url};
ghost use Rattle.ff_name.specs.Spelling.{IsDomain, IsName};
ghost use Rattle.ff_name.specs.declared.urls.Url.{Url};

/// Bytes are read as the address that they spell, and as none exactly where they spell none.
pub fn an_address_is_read_in_one_way()
    ensures found { (bytes : List ℕ) (url : Url) → (read_url bytes ≡ Some url) ↔ Spells bytes url }
    ensures none { (bytes : List ℕ) → (read_url bytes ≡ None) ↔ ((url : Url) → ¬ Spells bytes url) }
{}

/// The tests of names, domains and request texts pass exactly those that are spelled so.
pub fn what_is_spelled_passes_its_test()
    ensures names { (bytes : List ℕ) → IsTrue (is_name bytes) ↔ IsName bytes }
    ensures domains { (bytes : List ℕ) → IsTrue (is_domain bytes) ↔ IsDomain bytes }
    ensures requests { (bytes : List ℕ) → IsTrue (is_request bytes) ↔ IsRequest bytes }
{}
