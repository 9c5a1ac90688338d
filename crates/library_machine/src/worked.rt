ghost use Rattle.std.specs.Prelude.{◌≡◌, true, false, [], ◌∷◌, codes, map};
ghost use Rattle.media_types.specs.declared.decision.Code.TheVariants.{Alternates, NotRelated, Same};
ghost use Rattle.media_base.specs.declared.refusal.Unmet.TheVariants.{AlreadyUndone, FullDecisions, FullFiles, FullMappings, FullNear, FullServices, FullRelations, FullTags, PairKnown, SameFile, TooManyImplied, UnknownDecision, UnknownFile, UnknownPair, UnknownService, UnknownTag};
ghost use Rattle.media_base.specs.declared.reply.ImportStatus.TheVariants.{New, Known, Deleted};
ghost use Rattle.tag_types.specs.declared.map_state.MapState.TheVariants.{Current, Pending, Deleted as Taken};
ghost use Rattle.library_machine.specs.Session.{nothing, replies, replies_behind};
ghost use Rattle.library_machine.specs.Worked.{decide_of, import_of, import_with, queued, queues, pairs_from, pairs_behind, count_within, counted, listed, search_of, search_next, searched, distance_of, within, better_than, delete_of, undelete_of, changed, rebalance, rebalanced, relations_of, decision_of, undo_of, imported, decided, recorded, undone, grouped, standing, add_service, orders_of, map_of, unmap_of, mappings_of, served, mapped, tagged, sibling_of, no_sibling_of, parent_of, no_parent_of, ideal_of, paired, parented, ideal, ideal_under, no, refusals_of};

/// Small sessions whose replies can be followed by hand. The call does nothing.
#[tactic(auto, unfolding(crate::specs::Step::step, crate::specs::Step::admitted, crate::specs::Changing::needs, crate::specs::Changing::is_idle, crate::specs::Effects::effect, crate::specs::Changing::answer_to, crate::specs::Asking::query_needs, crate::specs::Asking::answer, crate::specs::Jobs::worked_out, crate::specs::Jobs::tended, file_records::specs::Searching::queue_of, file_records::specs::Searching::searched, file_records::specs::Searching::rising, file_records::specs::Near::near_at, spare_tables::specs::Pairs::pairs_below, potential_pairs::specs::Potential::potential_at, potential_pairs::specs::Pages::page_of, relation_groups::specs::Relations::relations_at, sibling_chains::specs::Recorded::ideal, parent_closure::specs::Ancestors::ancestors, parent_closure::specs::Ancestors::implies))]
pub fn worked_rows()
    // Each command's, in the order of their tests.
    ensures refusals_in_order { map refusals_of (import_of 10 ∷ delete_of 0 ∷ undelete_of 0 ∷ better_than 0 1 ∷ undo_of 0 ∷ distance_of 8 ∷ search_of (0 ∷ []) 8 ∷ [])
        ≡ (FullFiles ∷ []) ∷ (UnknownFile ∷ []) ∷ (UnknownFile ∷ []) ∷ (UnknownFile ∷ UnknownFile ∷ SameFile ∷ FullDecisions ∷ [])
        ∷ (UnknownDecision ∷ AlreadyUndone ∷ []) ∷ [] ∷ (UnknownFile ∷ FullNear ∷ []) ∷ [] }
    ensures tag_refusals_in_order { map refusals_of (add_service ∷ orders_of 1 (0 ∷ []) [] ∷ map_of (codes "a") 0 Current ∷ unmap_of (codes "a") 0 ∷ mappings_of 0 0 ∷ [])
        ≡ (FullServices ∷ []) ∷ (UnknownService ∷ TooManyImplied (record { 0 = 0 }) [] ∷ []) ∷ (UnknownFile ∷ UnknownService ∷ FullTags ∷ FullMappings ∷ [])
        ∷ (UnknownFile ∷ UnknownService ∷ UnknownTag ∷ []) ∷ (UnknownFile ∷ UnknownService ∷ []) ∷ [] }
    ensures sibling_refusals_in_order { map refusals_of (sibling_of 0 (codes "a") (codes "b") ∷ no_sibling_of 0 (codes "a") (codes "b") ∷ ideal_of 0 (codes "a") ∷ [])
        ≡ (UnknownService ∷ PairKnown [] ∷ FullTags ∷ TooManyImplied (record { 0 = 0 }) [] ∷ FullRelations ∷ [])
        ∷ (UnknownService ∷ UnknownTag ∷ UnknownTag ∷ UnknownPair ∷ TooManyImplied (record { 0 = 0 }) [] ∷ [])
        ∷ (UnknownService ∷ UnknownTag ∷ []) ∷ [] }
    ensures parent_refusals_in_order { map refusals_of (parent_of 0 (codes "a") (codes "b") ∷ no_parent_of 0 (codes "a") (codes "b") ∷ [])
        ≡ (UnknownService ∷ PairKnown (codes "b") ∷ FullTags ∷ TooManyImplied (record { 0 = 0 }) [] ∷ FullRelations ∷ [])
        ∷ (UnknownService ∷ UnknownTag ∷ UnknownTag ∷ UnknownPair ∷ TooManyImplied (record { 0 = 0 }) [] ∷ []) ∷ [] }
    ensures questions_in_order { map refusals_of (relations_of 0 ∷ decision_of 0 ∷ pairs_from 10 16 ∷ count_within 8 ∷ queues ∷ [])
        ≡ (UnknownFile ∷ []) ∷ (UnknownDecision ∷ []) ∷ [] ∷ [] ∷ [] ∷ [] }

    ensures a_known_file_keeps_its_number { replies nothing (import_of 10 ∷ import_of 11 ∷ import_of 10 ∷ [])
        ≡ imported 0 New ∷ imported 1 New ∷ imported 0 Known ∷ [] }

    ensures two_files_and_a_decision { replies nothing (import_of 10 ∷ import_of 11 ∷ better_than 0 1 ∷ relations_of 1 ∷ [])
        ≡ imported 0 New ∷ imported 1 New ∷ decided 0 ∷ grouped 0 (0 ∷ 1 ∷ []) ∷ [] }

    ensures one_file_twice { replies nothing (import_of 10 ∷ better_than 0 0 ∷ [])
        ≡ imported 0 New ∷ no SameFile ∷ [] }

    // That the file isn't there is told before that it is named twice.
    ensures no_such_file_twice { replies nothing (import_of 10 ∷ better_than 5 5 ∷ [])
        ≡ imported 0 New ∷ no UnknownFile ∷ [] }
    ensures no_such_file { replies nothing (import_of 10 ∷ relations_of 1 ∷ [])
        ≡ imported 0 New ∷ no UnknownFile ∷ [] }

    // The second decision finds the two files in one group already, and is recorded all the same.
    ensures no_effect_and_a_number { replies nothing (import_of 10 ∷ import_of 11 ∷ better_than 0 1 ∷ better_than 0 1 ∷ relations_of 0 ∷ [])
        ≡ imported 0 New ∷ imported 1 New ∷ decided 0 ∷ decided 1 ∷ grouped 0 (0 ∷ 1 ∷ []) ∷ [] }

    ensures three_was_not_king { replies_behind
        (import_of 10 ∷ import_of 11 ∷ import_of 12 ∷ import_of 13 ∷ better_than 0 1 ∷ better_than 2 3 ∷ better_than 0 3 ∷ [])
        (relations_of 3 ∷ relations_of 2 ∷ [])
        ≡ grouped 0 (0 ∷ 1 ∷ 3 ∷ []) ∷ grouped 2 (2 ∷ []) ∷ [] }
    ensures same_quality_goes_to_the_king { replies_behind
        (import_of 10 ∷ import_of 11 ∷ import_of 12 ∷ import_of 13 ∷ better_than 0 1 ∷ better_than 2 3 ∷ decide_of Same 0 3 ∷ [])
        (relations_of 3 ∷ [])
        ≡ grouped 2 (0 ∷ 1 ∷ 2 ∷ 3 ∷ []) ∷ [] }
    ensures undo_refolds { replies_behind
        (import_of 10 ∷ import_of 11 ∷ import_of 12 ∷ better_than 0 1 ∷ better_than 1 2 ∷ [])
        (relations_of 2 ∷ undo_of 0 ∷ relations_of 2 ∷ relations_of 0 ∷ undo_of 0 ∷ undo_of 2 ∷ [])
        ≡ grouped 0 (0 ∷ 1 ∷ 2 ∷ []) ∷ undone 0 ∷ grouped 1 (1 ∷ 2 ∷ []) ∷ grouped 0 (0 ∷ [])
        ∷ no AlreadyUndone ∷ no UnknownDecision ∷ [] }
    ensures told_as_recorded { replies_behind (import_of 10 ∷ import_of 11 ∷ decide_of Same 1 0 ∷ [])
        (decision_of 0 ∷ undo_of 0 ∷ decision_of 0 ∷ decision_of 1 ∷ [])
        ≡ recorded Same 1 0 false ∷ undone 0 ∷ recorded Same 1 0 true ∷ no UnknownDecision ∷ [] }
    ensures not_related_across_alternates { replies_behind
        (import_of 10 ∷ import_of 11 ∷ import_of 12 ∷ decide_of NotRelated 0 1 ∷ decide_of Alternates 1 2 ∷ [])
        (relations_of 2 ∷ undo_of 1 ∷ relations_of 2 ∷ relations_of 0 ∷ [])
        ≡ standing 2 (2 ∷ []) (1 ∷ []) (0 ∷ []) ∷ undone 1
        ∷ grouped 2 (2 ∷ []) ∷ standing 0 (0 ∷ []) [] (1 ∷ []) ∷ [] }
    ensures alternates_inside_a_group { replies_behind
        (import_of 10 ∷ import_of 11 ∷ better_than 0 1 ∷ decide_of Alternates 0 1 ∷ [])
        (relations_of 1 ∷ [])
        ≡ standing 1 (1 ∷ []) (0 ∷ []) [] ∷ [] }
    ensures queue_by_distance { replies_behind
        (import_with 10 (0xaa ∷ []) ∷ import_with 11 (0xaa ∷ []) ∷ [])
        (queues ∷ search_next 1 ∷ search_of (1 ∷ 1 ∷ []) 3 ∷ search_of (1 ∷ []) 2 ∷ search_next 5 ∷ distance_of 9 ∷ queues ∷ [])
        ≡ queued 2 ∷ searched 1 1 ∷ searched 1 1 ∷ searched 0 1 ∷ searched 1 0 ∷ within 9 ∷ queued 2 ∷ [] }

    // A file without a hash isn't in the queue, and can be searched all the same.
    ensures no_hash_to_search { replies_behind
        (import_of 10 ∷ import_with 11 (0 ∷ []) ∷ [])
        (queues ∷ search_of (1 ∷ 0 ∷ 1 ∷ []) 8 ∷ search_next 1 ∷ distance_of 8 ∷ [])
        ≡ queued 1 ∷ searched 2 0 ∷ searched 0 0 ∷ within 8 ∷ [] }
    ensures no_such_file_to_search { replies_behind (import_of 10 ∷ []) (search_of (0 ∷ 1 ∷ []) 8 ∷ queues ∷ rebalance ∷ [])
        ≡ no UnknownFile ∷ queued 0 ∷ rebalanced ∷ [] }
    ensures pairs_by_distance { replies_behind
        (import_with 10 (0 ∷ []) ∷ import_with 11 (0xff ∷ []) ∷ import_with 12 (0x1ff ∷ []) ∷ [])
        (search_next 3 ∷ pairs_from 10 16 ∷ distance_of 9 ∷ queues ∷ search_next 3 ∷ pairs_from 10 16 ∷ pairs_behind 0 1 1 16 ∷ count_within 8 ∷ [])
        ≡ searched 3 0 ∷ listed ((0, 1, 8) ∷ (1, 2, 1) ∷ []) ∷ within 9 ∷ queued 3 ∷ searched 3 0
        ∷ listed ((0, 1, 8) ∷ (0, 2, 9) ∷ (1, 2, 1) ∷ []) ∷ listed ((0, 2, 9) ∷ []) ∷ counted 2 ∷ [] }
    ensures both_are_searched { replies_behind
        (import_with 10 (0xaa ∷ []) ∷ import_with 11 (0xaa ∷ []) ∷ [])
        (search_next 1 ∷ pairs_from 10 16 ∷ search_next 1 ∷ pairs_from 10 16 ∷ search_next 1 ∷ [])
        ≡ searched 1 1 ∷ listed [] ∷ searched 1 0 ∷ listed ((0, 1, 0) ∷ []) ∷ searched 0 0 ∷ [] }
    ensures groups_join_and_part { replies_behind
        (import_with 10 (0 ∷ []) ∷ import_with 11 (1 ∷ []) ∷ import_with 12 (3 ∷ []) ∷ search_next 3 ∷ [])
        (pairs_from 10 16 ∷ pairs_from 10 1 ∷ better_than 0 1 ∷ pairs_from 10 16 ∷ undo_of 0 ∷ pairs_from 10 16 ∷ [])
        ≡ listed ((0, 1, 1) ∷ (0, 2, 2) ∷ (1, 2, 1) ∷ []) ∷ listed ((0, 1, 1) ∷ (1, 2, 1) ∷ [])
        ∷ decided 0 ∷ listed ((0, 2, 1) ∷ []) ∷ undone 0 ∷ listed ((0, 1, 1) ∷ (0, 2, 2) ∷ (1, 2, 1) ∷ []) ∷ [] }
    ensures alternates_are_no_pair { replies_behind
        (import_with 10 (0 ∷ []) ∷ import_with 11 (1 ∷ []) ∷ import_with 12 (3 ∷ []) ∷ search_next 3 ∷ [])
        (decide_of Alternates 0 1 ∷ pairs_from 10 16 ∷ undo_of 0 ∷ pairs_from 10 16 ∷ [])
        ≡ decided 0 ∷ listed ((0, 2, 2) ∷ (1, 2, 1) ∷ []) ∷ undone 0
        ∷ listed ((0, 1, 1) ∷ (0, 2, 2) ∷ (1, 2, 1) ∷ []) ∷ [] }
    ensures not_related_groups_are_no_pair { replies_behind
        (import_with 10 (0 ∷ []) ∷ import_with 11 (1 ∷ []) ∷ import_with 12 (3 ∷ []) ∷ search_next 3 ∷ better_than 0 1 ∷ [])
        (decide_of NotRelated 1 2 ∷ count_within 16 ∷ undo_of 1 ∷ pairs_from 10 16 ∷ [])
        ≡ decided 1 ∷ counted 0 ∷ undone 1 ∷ listed ((0, 2, 1) ∷ []) ∷ [] }
    ensures known_and_deleted { replies nothing (import_of 10 ∷ import_of 10 ∷ delete_of 0 ∷ import_of 10 ∷ delete_of 0 ∷ undelete_of 0 ∷ import_of 10 ∷ undelete_of 0 ∷ [])
        ≡ imported 0 New ∷ imported 0 Known ∷ changed true ∷ imported 0 Deleted ∷ changed false
        ∷ changed true ∷ imported 0 Known ∷ changed false ∷ [] }
    ensures no_such_file_to_delete { replies_behind (import_of 10 ∷ []) (delete_of 1 ∷ undelete_of 1 ∷ [])
        ≡ no UnknownFile ∷ no UnknownFile ∷ [] }
    ensures deleted_files_make_no_pair { replies_behind
        (import_with 10 (0 ∷ []) ∷ import_with 11 (1 ∷ []) ∷ import_with 12 (3 ∷ []) ∷ search_next 3 ∷ better_than 0 1 ∷ [])
        (delete_of 1 ∷ pairs_from 10 16 ∷ relations_of 0 ∷ undelete_of 1 ∷ pairs_from 10 16 ∷ [])
        ≡ changed true ∷ listed ((0, 2, 2) ∷ []) ∷ grouped 0 (0 ∷ 1 ∷ []) ∷ changed true ∷ listed ((0, 2, 1) ∷ []) ∷ [] }

    // A file that comes back waits again where it wasn't searched far enough.
    ensures deleted_files_do_not_wait { replies_behind
        (import_with 10 (0 ∷ []) ∷ import_with 11 (1 ∷ []) ∷ [])
        (delete_of 1 ∷ queues ∷ search_next 5 ∷ undelete_of 1 ∷ queues ∷ delete_of 0 ∷ undelete_of 0 ∷ queues ∷ [])
        ≡ changed true ∷ queued 1 ∷ searched 1 0 ∷ changed true ∷ queued 1
        ∷ changed true ∷ changed true ∷ queued 1 ∷ [] }
    ensures a_tag_is_mapped_and_taken_away { replies_behind (import_of 10 ∷ [])
        (map_of (codes "q q") 0 Pending ∷ mappings_of 0 0 ∷ map_of (codes "q q") 0 Pending ∷ unmap_of (codes "r") 0
        ∷ unmap_of (codes "q q") 0 ∷ unmap_of (codes "q q") 0 ∷ mappings_of 0 0 ∷ [])
        ≡ mapped 0 true ∷ tagged [] (codes "q q" ∷ []) [] ∷ mapped 0 false ∷ no UnknownTag
        ∷ changed true ∷ changed false ∷ tagged [] [] [] ∷ [] }

    // In the order of their numbers, whatever their texts are, and by the latest state.
    ensures tags_by_number { replies_behind (import_of 10 ∷ import_of 11 ∷ [])
        (map_of (codes "b") 1 Current ∷ map_of (codes "a") 1 Current ∷ map_of (codes "c") 0 Current ∷ map_of (codes "c") 1 Taken ∷ map_of (codes "b") 1 Current
        ∷ mappings_of 0 1 ∷ map_of (codes "b") 1 Pending ∷ mappings_of 0 1 ∷ mappings_of 1 0 ∷ mappings_of 1 2 ∷ [])
        ≡ mapped 0 true ∷ mapped 1 true ∷ mapped 2 true ∷ mapped 2 true ∷ mapped 0 false
        ∷ tagged (codes "b" ∷ codes "a" ∷ []) [] (codes "c" ∷ []) ∷ mapped 0 true
        ∷ tagged (codes "a" ∷ []) (codes "b" ∷ []) (codes "c" ∷ []) ∷ no UnknownService ∷ no UnknownFile ∷ [] }

    // A refused command numbers no tag.
    ensures a_refused_tag_has_no_number { replies_behind (import_of 10 ∷ [])
        (map_of (codes "a") 1 Current ∷ map_of (codes "b") 0 Current ∷ unmap_of (codes "a") 0 ∷ [])
        ≡ no UnknownFile ∷ mapped 0 true ∷ no UnknownTag ∷ [] }
    ensures services_and_their_orders { replies nothing
        (orders_of 0 (0 ∷ 1 ∷ []) [] ∷ add_service ∷ orders_of 0 (0 ∷ 1 ∷ []) [] ∷ orders_of 2 [] [] ∷ [])
        ≡ no UnknownService ∷ served 1 ∷ served 0 ∷ no UnknownService ∷ [] }

    // In service 0 c to a is passed over, since a leads to c, and a to d of service 1, since a has a good tag.
    ensures a_loop_of_siblings { replies_behind
        (add_service ∷ orders_of 0 (0 ∷ 1 ∷ []) (0 ∷ []) ∷ sibling_of 0 (codes "a") (codes "b") ∷ sibling_of 0 (codes "b") (codes "c")
        ∷ sibling_of 0 (codes "c") (codes "a") ∷ sibling_of 1 (codes "a") (codes "d") ∷ [])
        (ideal_of 0 (codes "a") ∷ ideal_of 0 (codes "b") ∷ ideal_of 0 (codes "c") ∷ ideal_of 1 (codes "a") ∷ sibling_of 0 (codes "a") (codes "b")
        ∷ no_sibling_of 0 (codes "b") (codes "c") ∷ ideal_of 0 (codes "c") ∷ [])
        ≡ ideal (codes "c") ∷ ideal (codes "c") ∷ ideal (codes "c") ∷ ideal (codes "d") ∷ no (PairKnown (codes "b"))
        ∷ changed true ∷ ideal (codes "b") ∷ [] }

    // A pair of a tag with itself has no effect.
    ensures a_tag_has_one_good_tag { replies nothing
        (sibling_of 0 (codes "a") (codes "b") ∷ sibling_of 0 (codes "a") (codes "c") ∷ no_sibling_of 0 (codes "a") (codes "c") ∷ no_sibling_of 0 (codes "b") (codes "a")
        ∷ no_sibling_of 0 (codes "a") (codes "b") ∷ no_sibling_of 0 (codes "a") (codes "b") ∷ sibling_of 0 (codes "a") (codes "c")
        ∷ sibling_of 0 (codes "b") (codes "b") ∷ ideal_of 0 (codes "b") ∷ sibling_of 1 (codes "b") (codes "a") ∷ [])
        ≡ paired 0 1 ∷ no (PairKnown (codes "b")) ∷ no UnknownTag ∷ no UnknownPair
        ∷ changed true ∷ no UnknownPair ∷ paired 0 2
        ∷ paired 1 1 ∷ ideal (codes "b") ∷ no UnknownService ∷ [] }

    // Pairs are read between ideal tags: z stands for x. Loops are harmless.
    ensures a_loop_of_parents { replies nothing
        (parent_of 0 (codes "x") (codes "y") ∷ parent_of 0 (codes "y") (codes "x") ∷ sibling_of 0 (codes "z") (codes "x")
        ∷ ideal_of 0 (codes "z") ∷ ideal_of 0 (codes "y") ∷ parent_of 0 (codes "y") (codes "x") ∷ no_parent_of 0 (codes "x") (codes "y")
        ∷ ideal_of 0 (codes "z") ∷ ideal_of 0 (codes "y") ∷ no_parent_of 0 (codes "x") (codes "y") ∷ [])
        ≡ parented 0 1 ∷ parented 1 0 ∷ paired 2 0
        ∷ ideal_under (codes "x") (codes "y" ∷ []) ∷ ideal_under (codes "y") (codes "x" ∷ []) ∷ no (PairKnown (codes "x")) ∷ changed true
        ∷ ideal (codes "x") ∷ ideal_under (codes "y") (codes "x" ∷ []) ∷ no UnknownPair ∷ [] }

    // A service takes the parent pairs of the services of its parent list alone.
    ensures parents_of_another_service { replies nothing
        (add_service ∷ parent_of 1 (codes "a") (codes "b") ∷ ideal_of 0 (codes "a") ∷ orders_of 0 (0 ∷ []) (0 ∷ 1 ∷ []) ∷ ideal_of 0 (codes "a") ∷ ideal_of 1 (codes "a")
        ∷ orders_of 0 (0 ∷ []) (0 ∷ []) ∷ ideal_of 0 (codes "a") ∷ [])
        ≡ served 1 ∷ parented 0 1 ∷ ideal (codes "a") ∷ served 0 ∷ ideal_under (codes "a") (codes "b" ∷ []) ∷ ideal_under (codes "a") (codes "b" ∷ [])
        ∷ served 0 ∷ ideal (codes "a") ∷ [] }
    ensures all_bits_differ { replies_behind
        (import_with 10 (0 ∷ []) ∷ import_with 11 (0xffffffffffffffff ∷ []) ∷ distance_of 16 ∷ [])
        (search_next 2 ∷ pairs_from 10 16 ∷ [])
        ≡ searched 2 0 ∷ listed [] ∷ [] }
{}
