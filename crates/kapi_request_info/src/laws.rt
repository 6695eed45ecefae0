//! Laws of reading targets, each the clause of a function that does nothing.
ghost use Rattle.std.specs.Prelude.{◌≡◌, ℕ, ◌<◌, true, List, [], ◌∷◌, ◌++◌, codes, length};
ghost use Rattle.std.specs.List.{list_all};
ghost use Rattle.percent_encoding.specs.declared.ascii_set.AsciiSet.{AsciiSet};
ghost use Rattle.kapi_http.specs.declared.message.Method.{Method};
ghost use Rattle.kapi_request_info.specs.Target.{is_target_byte};
ghost use Rattle.kapi_request_info.specs.Query.{query_pairs};
ghost use Rattle.kapi_request_info.specs.Resource.{attributes_by};
ghost use Rattle.kapi_request_info.specs.Attributes.{info};
ghost use Rattle.kapi_request_info.specs.Written.{AreSegments, IsSegmentSet, is_authority, written};

/// A path that is written from its segments with their escapes is read as those segments, with or without a query.
pub fn written_paths_are_read()
    ensures path { (method : Method) (set : AsciiSet) (names : List (List ℕ)) → IsSegmentSet set → AreSegments names → 0 < length names
        → info method (written set names) ≡ attributes_by method (written set names) names [] }
    ensures query { (method : Method) (set : AsciiSet) (names : List (List ℕ)) (query : List ℕ) → IsSegmentSet set → AreSegments names → 0 < length names
        → list_all is_target_byte query ≡ true
        → info method (written set names ++ 63 ∷ query) ≡ attributes_by method (written set names) names (query_pairs query) }
{}

/// The scheme and the authority of an absolute target do not count; without a path it is as one with the path `/`.
pub fn authorities_mean_nothing()
    ensures path { (method : Method) (authority rest : List ℕ) → is_authority authority ≡ true
        → info method (codes "http://" ++ (authority ++ 47 ∷ rest)) ≡ info method (47 ∷ rest) }
    ensures query { (method : Method) (authority query : List ℕ) → is_authority authority ≡ true
        → info method (codes "http://" ++ (authority ++ 63 ∷ query)) ≡ info method (codes "/?" ++ query) }
    ensures alone { (method : Method) (authority : List ℕ) → is_authority authority ≡ true
        → info method (codes "http://" ++ authority) ≡ info method (codes "/") }
{}
