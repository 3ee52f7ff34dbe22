//! The theorems of the canonical trie, each the contract of a function with an empty body.
#![tactic(auto)]

ghost use Rattle.std.specs.Prelude.{◌≡◌, ℕ, ◌+◌, ◌*◌, ◌≤◌, List, [], ◌∷◌, None, Some, is_some, true, length};
ghost use Rattle.rart_keys.specs.Joins.{join};
ghost use Rattle.rart_keys.specs.SortedMap.{IsAscending, lookup, put, without, keys_of};
ghost use Rattle.rart_trie.specs.shapes.BranchPoints.{IsBranchPoint};
ghost use Rattle.rart_trie.specs.edits.EditRuns.{Edit, run_tree, run_map};
ghost use Rattle.rart_nodes.specs.joins.Intersections.{intersect_nodes};
ghost use Rattle.rart_nodes.specs.joins.SharedEdges.{as_map, is_shared, joint_visits, intersect_visits, shared_edges};
ghost use Rattle.rart_trie.specs.edits.InsertAllocations.{insert_allocates, trie_put_allocates};
ghost use Rattle.rart_trie.specs.walks.ProbeCount.{probe_count, entered_nodes};
ghost use Rattle.rart_trie.specs.edits.RemoveAllocations.{remove_allocates, trie_remove_allocates};
ghost use Rattle.rart_laws.specs.SampleKeys.{nested_keys, left_keys, right_keys};
ghost use Rattle.rart_trie.specs.shapes.Shape.{HasShape, NodeRecord, contains_key, record_at};
ghost use Rattle.rart_trie.specs.tries.Tree.{tree_pairs, tree_nodes, IsCanonicalTree};
ghost use Rattle.rart_trie.specs.tries.Trie.{Trie, IsCanonical, trie_lookup, pairs_of, nodes_of, trie_put, trie_remove};

pub mod stats;

/// Proves that the keys determine a canonical trie. Its pairs ascend, a descent is a look-up in them, and its nodes
/// are exactly the branch points of its keys.
pub fn canonical_trie<V>()
    ensures pairs_ascend { (t : Trie V) → IsCanonical t → IsAscending (pairs_of t) }
    ensures looks_up { (k : List ℕ) (t : Trie V) → IsCanonical t
        → trie_lookup k t ≡ lookup k (pairs_of t) }
    ensures shape { (t : Trie V) → IsCanonical t → HasShape (keys_of (pairs_of t)) (nodes_of t) }
    ensures equal_keys { (t u : Trie V) → IsCanonical t → IsCanonical u
        → keys_of (pairs_of t) ≡ keys_of (pairs_of u)
        → nodes_of t ≡ nodes_of u }
    ensures few_nodes { (t : Trie V) → IsCanonical t
        → length (nodes_of t) + 1 ≤ 2 * length (pairs_of t) }
    ensures visits { (k : List ℕ) (t : Trie V) → IsCanonical t
        → entered_nodes k t ≡ probe_count (keys_of (pairs_of t)) k }
{}

/// Proves that the shape of keys has a record at a string exactly if the string is a branch point.
pub fn branch_points<V>()
    ensures has_record { (p : List ℕ) (m : List (List ℕ × V)) → IsAscending m
        → IsBranchPoint (keys_of m) p
        → is_some (record_at (keys_of m) p) ≡ true }
    ensures has_no_other { (p : List ℕ) (m : List (List ℕ × V)) → IsAscending m
        → is_some (record_at (keys_of m) p)
        ≡ true → IsBranchPoint (keys_of m) p }
{}

/// Proves what an edit does to a canonical trie. The trie stays canonical, its pairs are those of the sorted map, and
/// the keys alone determine where the edit allocates.
pub fn edits<V>()
    ensures put_canonical { (k : List ℕ) (v : V) (t : Trie V) → IsCanonical t
        → IsCanonical (trie_put k v t) }
    ensures put_pairs { (k : List ℕ) (v : V) (t : Trie V) → IsCanonical t
        → pairs_of (trie_put k v t) ≡ put k v (pairs_of t) }
    ensures put_allocates { (k : List ℕ) (t : Trie V) → IsCanonical t
        → trie_put_allocates k t ≡ insert_allocates (keys_of (pairs_of t)) k }
    ensures remove_canonical { (k : List ℕ) (t : Trie V) → IsCanonical t
        → IsCanonicalTree (trie_remove k t) }
    ensures remove_pairs { (k : List ℕ) (t : Trie V) → IsCanonical t
        → tree_pairs (trie_remove k t) ≡ without k (pairs_of t) }
    ensures remove_absent { (k : List ℕ) (t : Trie V) → IsCanonical t → trie_lookup k t ≡ None
        → trie_remove k t ≡ Some t }
    ensures remove_allocates { (k : List ℕ) (t : Trie V) → IsCanonical t
        → trie_remove_allocates None k t ≡ remove_allocates (keys_of (pairs_of t)) k }
{}

/// Proves that after any list of edits of an empty tree the pairs are those of the sorted map and the nodes have the
/// shape of its keys.
pub fn histories<V>()
    ensures pairs { (es : List (Edit V)) → tree_pairs (run_tree es None) ≡ run_map es [] }
    ensures shape { (es : List (Edit V))
        → HasShape (keys_of (run_map es [])) (tree_nodes (run_tree es None)) }
{}

/// Proves that two lists of records with the shape of the same keys are equal.
pub fn one_shape()
    ensures { (s : List (List ℕ)) (xs ys : List (List ℕ × NodeRecord)) → HasShape s xs
        → HasShape s ys → xs ≡ ys }
{}

/// Proves that storing the present value of a key changes nothing, and that it undoes the storing of another.
pub fn put_back<V>()
    ensures same_pairs { (k : List ℕ) (v : V) (m : List (List ℕ × V)) → IsAscending m
        → lookup k m ≡ Some v → put k v m ≡ m }
    ensures back { (k : List ℕ) (v w : V) (m : List (List ℕ × V)) → IsAscending m
        → lookup k m ≡ Some v
        → put k v (put k w m) ≡ m }
{}

/// Proves that the walk of an intersection yields the join of the pairs. It makes one visit for the roots and one for
/// each shared edge, which is fewer than both tries have nodes.
pub fn intersections<V, W>()
    ensures intersection { (t : Trie V) (u : Trie W) → IsCanonical t → IsCanonical u
        → intersect_nodes t u ≡ join (pairs_of t) (pairs_of u) }
    ensures visits { (t : Trie V) (u : Trie W) → IsCanonical t → IsCanonical u
        → intersect_visits t u
        ≡ 1 + length (shared_edges (keys_of (pairs_of t)) (keys_of (pairs_of u))) }
    ensures visits_below_nodes { (t : Trie V) (u : Trie W) → IsCanonical u
        → intersect_visits t u + 1 ≤ length (nodes_of t) + length (nodes_of u) }
    ensures edges { (x : List ℕ) (s t : List (List ℕ))
        → contains_key (shared_edges s t) x ≡ is_shared s t x }
    ensures edges_ascend { (s t : List (List ℕ)) → IsAscending (as_map (shared_edges s t)) }
{}

/// Proves numbers of visits by computation.
///
/// In a tree of "", "a", "ab" and "abc" a look-up of "abc" visits four nodes, one of "abd" three, and one of "b" the
/// root alone. The intersection of "ab", "abc" and "dog" with "abc", "dog" and "zzz" visits both roots together and
/// one node for each of the edges "a", "abc" and "d". An empty tree has no visits.
pub fn sample_visits()
    ensures deepest_visits { probe_count nested_keys (97 ∷ 98 ∷ 99 ∷ []) ≡ 4 }
    ensures absent_visits { probe_count nested_keys (97 ∷ 98 ∷ 100 ∷ []) ≡ 3 }
    ensures root_visits { probe_count nested_keys (98 ∷ []) ≡ 1 }
    ensures both { joint_visits left_keys right_keys ≡ 4 }
    ensures edges { shared_edges left_keys right_keys
        ≡ (97 ∷ []) ∷ (97 ∷ 98 ∷ 99 ∷ []) ∷ (100 ∷ []) ∷ [] }
    ensures no_keys { (k : List ℕ) → probe_count [] k ≡ 0 }
    ensures no_left { (s : List (List ℕ)) → joint_visits [] s ≡ 0 }
    ensures no_right { (s : List (List ℕ)) → joint_visits s [] ≡ 0 }
{}
