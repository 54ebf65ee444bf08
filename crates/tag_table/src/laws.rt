//! Laws of tables of tags, each the contract of a function that does nothing.

ghost use Rattle.std.specs.Prelude.{◌≡◌, ◌↔◌, ℕ, List, Option, replicate, slice_set};
ghost use Rattle.tag_table.specs.Tags.{free_tag, holder_of, out_count, AreAllOut, IsLowestFree, IsTaken, IsGivenBack};
ghost use Rattle.tag_table.specs.Tags.{HoldDistinctTags, HoldsNone};
ghost use Rattle.torus.specs.declared.step.OpId.{OpId};

/// The first free tag in the list is the lowest one, and there is none exactly when all are out.
pub fn first_free_is_lowest()
    ensures found { (tags : List (Option OpId)) (t : ℕ)
        → (free_tag tags ≡ Some t) ↔ IsLowestFree tags t }
    ensures none { (tags : List (Option OpId)) → (free_tag tags ≡ None) ↔ AreAllOut tags }
{}

/// What a `take` and a `give` do to a table: a tag that is out is given to nobody else, until it
/// is given back.
pub fn takes_and_gives_change_one_tag()
    ensures none_out { (n : ℕ) → out_count (replicate n None) ≡ 0 }
    ensures taken { (tags : List (Option OpId)) (t : ℕ) (id : OpId) → free_tag tags ≡ Some t
        → IsTaken tags (slice_set tags t (Some id)) t id }
    ensures given { (tags : List (Option OpId)) (t : ℕ) (id : OpId) → holder_of tags t ≡ Some id
        → IsGivenBack tags (slice_set tags t None) t id }
{}

/// Operations hold distinct tags, as long as no operation takes a tag while it holds one.
pub fn operations_hold_distinct_tags()
    ensures free { (n : ℕ) → HoldDistinctTags (replicate n None) }
    ensures taken { (tags : List (Option OpId)) (t : ℕ) (id : OpId) → HoldDistinctTags tags
        → HoldsNone tags id
        → HoldDistinctTags (slice_set tags t (Some id)) }
    ensures given { (tags : List (Option OpId)) (t : ℕ) → HoldDistinctTags tags
        → HoldDistinctTags (slice_set tags t None) }
{}
