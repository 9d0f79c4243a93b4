//! The law of places and indices.

ghost use Rattle.std.specs.Prelude.{◌≡◌, ℕ, List, length, map, get_or};
ghost use Rattle.std.specs.List.{range_with_len};
ghost use Rattle.nd_base.specs.declared.array.Dim.{Dim};
ghost use Rattle.nd_base.specs.Shapes.{product};
ghost use Rattle.nd_base.specs.Places.{sizes_of, place, indices, index_in, IsIndex};

/// The law that ties the places of samples to their indices: there are as many indices as samples, the k-th of them has
/// place k, and the index of a place in each dimension is that of the index which has this place.
pub fn places_have_indices()
    ensures count { (sizes : List ℕ) → length (indices sizes) ≡ product sizes }
    ensures place { (sizes : List ℕ) → map (place sizes) (indices sizes) ≡ range_with_len 0 (product sizes) }
    ensures index { (dims : List Dim) (index : List ℕ) (k : ℕ) → IsIndex dims index → index_in dims k (place (sizes_of dims) index) ≡ get_or index k 0 }
{}
