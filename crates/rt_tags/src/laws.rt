// Laws of the definitions, each the contract of a function that does nothing.
ghost use Rattle.std.specs.Prelude.{◌≡◌, ◌↔◌, ℕ, ◌+◌, ◌<◌, ◌≤◌, List, [], ◌∷◌, ◌++◌, Bool, true, false, length};
ghost use Rattle.std.specs.List.{AllByRecursion};
ghost use Rattle.std.specs.Str.{bytes_eq};
ghost use Rattle.rt_stamps.specs.declared.stamp.Stamp.{Stamp};
ghost use Rattle.rt_stamps.specs.declared.stamp.TheConstants.{ROOT};
ghost use Rattle.rt_stamps.specs.Stamps.{is_before, is_same};
ghost use Rattle.rt_tags.specs.States.{IsByName, IsState, KeepsIds, TagStates, Write, is_on, names_on, write_of, written};
ghost use Rattle.rt_tags.specs.declared.toggles.TagCount.{TagCount};
ghost use Rattle.rt_tags.specs.Borders.{AreToggles, border, borders, either, first, last, one_or_none};
ghost use Rattle.rt_tags.specs.Tags.{HaveNoRepeats, is_listed};
ghost use Rattle.rt_tags.specs.Toggles.{AreFrom, TagCounts, count_in, more_tags};
ghost use Rattle.rt_tags.specs.Writers.{is_shared, listed_by, state_after};

/// A state has one write of each tag and is known by them, and writes may come in any order, unless
/// two of one tag have one stamp.
pub fn states()
    ensures by_name { (w : Write) (state : List Write) → IsByName state → IsByName (written w state) }
    ensures known { (s t : List Write) → IsByName s → IsByName t → ((name : List ℕ) → write_of name s ≡ write_of name t) → s ≡ t }
    ensures any_order { (v w : Write) (state : List Write) → IsByName state
        → (bytes_eq v.name w.name ≡ true → is_same v.writer w.writer ≡ false) → written v (written w state) ≡ written w (written v state) }
    ensures on { (name : List ℕ) (state : List Write) → IsByName state → is_on name state ≡ is_listed name (names_on state) }
    ensures once { (state : List Write) → IsByName state → HaveNoRepeats (names_on state) }
{}

/// A tag is on in the state that writes leave just where the one of its writes with the greatest
/// stamp says on. An Insert's own list may be kept under `ROOT` in place of the Insert's stamp: each
/// Tag operation that names a character is greater than the Insert that made it.
pub fn deciding_writes()
    ensures greatest { (name : List ℕ) (writes : List Write) → is_on name (state_after [] writes) ≡ is_shared name writes }
    ensures root { (name : List ℕ) (insert : Stamp) (names : List (List ℕ)) (tags : List Write)
        → AllByRecursion (λ w. is_before insert w.writer ≡ true) tags
        → is_on name (state_after [] (listed_by ROOT names ++ tags)) ≡ is_shared name (listed_by insert names ++ tags) }
{}

/// Tags in order are known by the count of each tag. If each tag that has a count here has one there,
/// there are no more of them here. Two lists have no more tags together than were given out, if they
/// have counts of these alone.
pub fn tag_counts()
    ensures known { (cs ds : List TagCount) → AreFrom 0 cs → AreFrom 0 ds → ((tag : ℕ) → count_in tag cs ≡ count_in tag ds) → cs ≡ ds }
    ensures within { (cs ds : List TagCount) → AreFrom 0 cs → AreFrom 0 ds
        → ((tag : ℕ) → 0 < count_in tag cs → 0 < count_in tag ds) → length cs ≤ length ds }
    ensures together { (n : ℕ) (cs ds : List TagCount) → AreFrom 0 cs → AreFrom 0 ds → ((tag : ℕ) → n ≤ tag → count_in tag cs ≡ 0)
        → ((tag : ℕ) → n ≤ tag → count_in tag ds ≡ 0) → length ds + more_tags cs ds ≤ n }
{}

/// The borders of two stretches that are joined are those of both, and the one between them: so what a
/// stretch adds up to is its borders, and its first and its last element. Where there is no border, all
/// elements are alike.
pub fn joined_stretches<A>()
    ensures joined { (test : A → Bool) (xs ys : List A)
        → borders test (xs ++ ys) ≡ borders test xs + (border test (last xs) (first ys) + borders test ys) }
    ensures first { (xs ys : List A) → first (xs ++ ys) ≡ either (first xs) (first ys) }
    ensures last { (xs ys : List A) → last (xs ++ ys) ≡ either (last ys) (last xs) }
    ensures alike { (test : A → Bool) (x : A) (xs : List A) → (borders test (x ∷ xs) ≡ 0) ↔ AllByRecursion (λ y. test y ≡ test x) xs }
    ensures same { (test other : A → Bool) (xs : List A) → AllByRecursion (λ x. test x ≡ other x) xs → borders test xs ≡ borders other xs }
    ensures few { (test : A → Bool) (xs : List A) → borders test xs ≤ length xs }
{}

/// Where a part of a stretch is replaced, only the borders change that its own elements and its two
/// neighbours make.
pub fn replaced_stretches<A>()
    ensures spread { (test : A → Bool) (xs mid ys : List A) → borders test (xs ++ (mid ++ ys))
        ≡ borders test xs + (borders test (one_or_none (last xs) ++ (mid ++ one_or_none (first ys))) + borders test ys) }
    ensures replaced { (test : A → Bool) (xs old new ys : List A)
        → borders test (xs ++ (new ++ ys)) + borders test (one_or_none (last xs) ++ (old ++ one_or_none (first ys)))
        ≡ borders test (xs ++ (old ++ ys)) + borders test (one_or_none (last xs) ++ (new ++ one_or_none (first ys))) }
    ensures fewer { (test : A → Bool) (xs mid ys : List A)
        → borders test (one_or_none (last xs) ++ (mid ++ one_or_none (first ys))) ≤ borders test (xs ++ (mid ++ ys)) }
{}

/// What are the toggles of a stretch by one table, are they by each later one that keeps its ids.
pub fn kept_toggles()
    ensures { (old new : TagStates) (states : List ℕ) (t : TagCounts) → KeepsIds old new → AllByRecursion (IsState old) states
        → AreToggles old states t → AreToggles new states t }
{}
