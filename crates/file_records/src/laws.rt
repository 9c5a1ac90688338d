ghost use Rattle.std.specs.Prelude.{◌≡◌, ◌≢◌, ◌↔◌, ◌<◌, ◌≤◌, ◌+◌, ◌&&◌, ◌==◌, ℕ, Bool, true, not, nat_lt, if◌then◌else◌, List, [], ◌∷◌, ◌++◌, length, filter, None, Some, All, Contains, slice_get};
ghost use Rattle.std.specs.List.{AllPairs};
ghost use Rattle.std.specs.BTreeSet.{insert_key};
ghost use Rattle.std.specs.Option.{option_map};
ghost use Rattle.std.specs.Ordering.{nat_cmp};
ghost use Rattle.spare_tables.specs.Keys.{without};
ghost use Rattle.media_types.specs.declared.hash.Hash64.{Hash64};
ghost use Rattle.media_types.specs.declared.hash.Sha.{Sha};
ghost use Rattle.media_types.specs.declared.numbers.FileNo.{FileNo};
ghost use Rattle.file_records.specs.declared.file_row.FileRow.{FileRow as Row};
ghost use Rattle.file_records.specs.Distances.{least_distance};
ghost use Rattle.file_records.specs.Lookup.{AreDistinct, IsUnknown, file_with};
ghost use Rattle.file_records.specs.Near.{hashes_at, near_at, near_pairs};
ghost use Rattle.file_records.specs.Living.{deleted, with_live_mark, with_mark};
ghost use Rattle.file_records.specs.Searching.{is_named, is_queued, is_short_of, passes, queue_of, raised, rising, searched, wants_search};
ghost use Rattle.file_records.specs.Words.{AreDistinctWords, has_hash, new_words, words_of};

/// What the words about look-ups mean, for all lists of files. The call does nothing.
pub fn lookup_laws()
    ensures not_found { (sha : Sha) (files : List Row)
        → (file_with sha files ≡ None) ↔ IsUnknown sha files }
    ensures one_more { (file : Row) (files : List Row)
        → AreDistinct files → IsUnknown file.sha files → AreDistinct (files ++ file ∷ []) }
{}

/// What holds of the hashes of all lists of files. The call does nothing.
pub fn hash_laws()
    ensures one_more { (file : Row) (files : List Row)
        → words_of (files ++ file ∷ []) ≡ words_of files ++ new_words (words_of files) file.hashes }
    ensures distinct { (files : List Row) → AreDistinctWords (words_of files) }
    ensures symmetric { (xs ys : List Hash64) → least_distance xs ys ≡ least_distance ys xs }

    // Each hash of a file has a number by which the file is found, and each number is that of some file.
    ensures numbered { (files : List Row) (k : ℕ) (hash : Hash64) → Contains (hashes_at files k) hash
        → (h : ℕ) × (slice_get (words_of files) h ≡ Some hash) × (has_hash h files k ≡ true) }
    ensures held { (files : List Row) (h : ℕ) → h < length (words_of files)
        → (k : ℕ) × (k < length files) × (has_hash h files k ≡ true) }
{}

/// What searches do to all lists of files. The call does nothing.
pub fn search_laws()
    // Each row by itself.
    ensures each { (d : ℕ) (named : List FileNo) (files : List Row) (k : ℕ)
        → slice_get (searched d named files) k
        ≡ option_map (λ row. if is_named named k then raised d row else row) (slice_get files k) }

    // One file after the other.
    ensures one_more { (d : ℕ) (named : List FileNo) (file : FileNo) (files : List Row)
        → searched d (file ∷ []) (searched d named files) ≡ searched d (named ++ file ∷ []) files }
    ensures none { (d : ℕ) (files : List Row) → searched d [] files ≡ files }

    // It is enough to search those whose distance rises, and there are none exactly where nothing changes.
    ensures enough { (d : ℕ) (named : List FileNo) (files : List Row)
        → searched d (rising d named files) files ≡ searched d named files }
    ensures changes { (d : ℕ) (named : List FileNo) (files : List Row)
        → (rising d named files ≡ []) ↔ (searched d named files ≡ files) }
    ensures known { (d : ℕ) (named : List FileNo) (files : List Row)
        → All (λ f. f.0 < length files) (rising d named files) }

    // Those whose distance rises ascend, and are the named ones that weren't searched so far.
    ensures rising_ascends { (d : ℕ) (named : List FileNo) (files : List Row)
        → AllPairs (λ a b. a.0 < b.0) (rising d named files) }
    ensures rises { (d : ℕ) (named : List FileNo) (files : List Row) (k : ℕ)
        → is_named (rising d named files) k ≡ (is_named named k && passes (is_short_of d) files k) }

    // All but the searched distances stays.
    ensures same_length { (d : ℕ) (named : List FileNo) (files : List Row)
        → length (searched d named files) ≡ length files }
    ensures distinct { (d : ℕ) (named : List FileNo) (files : List Row)
        → AreDistinct files → AreDistinct (searched d named files) }
    ensures words { (d : ℕ) (named : List FileNo) (files : List Row)
        → words_of (searched d named files) ≡ words_of files }
    ensures others { (d : ℕ) (file : FileNo) (files : List Row) (k : ℕ)
        → k ≢ file.0 → slice_get (searched d (file ∷ []) files) k ≡ slice_get files k }

    // The queue ascends, and has only files that are there. A new file goes last.
    ensures queue_ascends { (d : ℕ) (files : List Row) → AllPairs (λ a b. a.0 < b.0) (queue_of d files) }
    ensures queue_known { (d : ℕ) (files : List Row) → All (λ f. f.0 < length files) (queue_of d files) }
    ensures queue_one_more { (d : ℕ) (file : Row) (files : List Row)
        → queue_of d (files ++ file ∷ []) ≡ queue_of d files
        ++ (if is_queued d file then (record { 0 = length files }) ∷ [] else []) }

    // A search within less than the queue's distance leaves it as it was. One within as much takes the
    // named files out of it, and those of them that stood there are among the ones that rise.
    ensures queue_stays { (w d : ℕ) (named : List FileNo) (files : List Row)
        → w < d → queue_of d (searched w named files) ≡ queue_of d files }
    ensures queue_leaves { (w d : ℕ) (named : List FileNo) (files : List Row)
        → d ≤ w → queue_of d (searched w named files)
        ≡ filter (λ f. not (is_named named f.0)) (queue_of d files) }
    ensures queue_left { (w d : ℕ) (named : List FileNo) (files : List Row)
        → d ≤ w → length (queue_of d (searched w named files))
        + length (filter (λ f. passes (is_queued d) files f.0) (rising w named files))
        ≡ length (queue_of d files) }
{}

/// What it does to all lists of files that one of them is deleted, or live again. The call does nothing.
pub fn live_laws()
    // The mark of this file is another one, and nothing else.
    ensures each { (n : ℕ) (live : Bool) (files : List Row) (k : ℕ)
        → slice_get (with_live_mark n live files) k
        ≡ option_map (λ row. if k == n then with_mark live row else row) (slice_get files k) }
    ensures same_length { (n : ℕ) (live : Bool) (files : List Row)
        → length (with_live_mark n live files) ≡ length files }
    ensures distinct { (n : ℕ) (live : Bool) (files : List Row)
        → AreDistinct files → AreDistinct (with_live_mark n live files) }
    ensures words { (n : ℕ) (live : Bool) (files : List Row)
        → words_of (with_live_mark n live files) ≡ words_of files }
    ensures near { (n : ℕ) (live : Bool) (files : List Row)
        → near_pairs (with_live_mark n live files) ≡ near_pairs files }

    // Nothing changes exactly where the mark stands so already. The mark as it was brings all back.
    ensures changes { (n : ℕ) (live : Bool) (files : List Row) (row : Row) → slice_get files n ≡ Some row
        → (with_live_mark n live files ≡ files) ↔ (row.live ≡ live) }
    ensures back { (n : ℕ) (live : Bool) (files : List Row) (row : Row) → slice_get files n ≡ Some row
        → with_live_mark n row.live (with_live_mark n live files) ≡ files }

    // The file goes to its place among the deleted ones, or leaves it.
    ensures deleted { (n : ℕ) (live : Bool) (files : List Row) → n < length files
        → deleted (with_live_mark n live files)
        ≡ (if live then without nat_cmp (deleted files) n else insert_key nat_cmp (deleted files) n) }

    // So it does in the queue, where it stands while it is live and wants a search.
    ensures queue { (d : ℕ) (file : FileNo) (live : Bool) (files : List Row)
        → queue_of d (with_live_mark file.0 live files)
        ≡ filter (λ other. nat_lt other.0 file.0) (queue_of d files)
        ++ ((if live && passes (wants_search d) files file.0 then file ∷ [] else [])
        ++ filter (λ other. nat_lt file.0 other.0) (queue_of d files)) }
{}

/// What holds of the near pairs and of the deleted files of all lists of files. The call does nothing.
pub fn near_laws()
    // Each near pair is of two files that are there, the lower first.
    ensures below { (files : List Row)
        → All (λ row. (row.0.0 < row.0.1) × (row.0.1 < length files)) (near_pairs files) }

    // The order of two files doesn't matter.
    ensures symmetric { (files : List Row) (f g : ℕ) → near_at files f g ≡ near_at files g f }

    // A file that was never searched is near to none.
    ensures one_more { (file : Row) (files : List Row)
        → file.searched ≡ None → near_pairs (files ++ file ∷ []) ≡ near_pairs files }

    // Neither a live file nor a search brings a deleted file.
    ensures live_more { (file : Row) (files : List Row)
        → file.live ≡ true → deleted (files ++ file ∷ []) ≡ deleted files }
    ensures still_deleted { (d : ℕ) (named : List FileNo) (files : List Row)
        → deleted (searched d named files) ≡ deleted files }
{}
