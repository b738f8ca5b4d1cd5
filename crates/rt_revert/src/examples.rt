// Worked examples of the definitions, each a clause that computes.
ghost use Rattle.std.specs.Prelude.{◌≡◌, [], ◌∷◌, codes, map};
ghost use Rattle.rt_ops.specs.Operations.{Delete, Insert};
ghost use Rattle.rt_store.specs.Cells.{text_of};
ghost use Rattle.rt_ops.specs.Examples.{span};
ghost use Rattle.rt_rga.specs.Examples.{at, only_t};
ghost use Rattle.rt_plans.specs.Examples.{tags_of_each};
ghost use Rattle.rt_revert.specs.Examples.{abc_inserted, abc_typed, b_gone, b_removed, beside_x, both_actions, c_removed, tagged_gone, tagged_removed, with_b_again, without_b};
ghost use Rattle.rt_revert.specs.Reverting.{reversion, reverted, reverted_group};

/// Site 1 typed `abc`, site 2 put `X` behind the `a`, and site 1 removed the `b`. Undone, the `b` comes
/// back behind the old one, so behind the `X`; then the insertion is undone, and the `X` alone is left;
/// redone, its three characters come back, each where it was.
pub fn beside_others()
    ensures undone { text_of (reverted beside_x (b_removed ∷ [])).cells ≡ codes "aXbc\n" }
    ensures operations { (reversion beside_x (b_removed ∷ [])).drafts ≡ Insert (at 2 1) [] (codes "b") ∷ [] }
    ensures newer { map (λ a. a.inserted) (reverted_group beside_x (b_removed ∷ [])) ≡ (at 5 1 ∷ []) ∷ [] }
    ensures both { text_of (reverted (reverted beside_x (b_removed ∷ [])) (abc_inserted ∷ [])).cells ≡ codes "X\n" }
    ensures redone { let first = reverted beside_x (b_removed ∷ []) in
        text_of (reverted (reverted first (abc_inserted ∷ [])) (reverted_group first (abc_inserted ∷ []))).cells ≡ codes "aXbc\n" }
{}

/// `ab` was typed and the `b` removed, in one group. Undone, the `b` comes back as `(4,1)`, and so it
/// is what the insertion put in, and goes with the `a`.
pub fn in_one_group()
    ensures text { text_of (reverted b_gone both_actions).cells ≡ codes "\n" }
    ensures operations { (reversion b_gone both_actions).drafts
        ≡ Insert (at 2 1) [] (codes "b") ∷ Delete (span 1 1 1 ∷ span 1 4 4 ∷ []) ∷ [] }
    ensures group { map (λ a. a.number) (reverted_group b_gone both_actions) ≡ 3 ∷ 1 ∷ [] }
{}

/// A removed character had the tag t, and comes back with it.
pub fn with_tags()
    ensures tags { tags_of_each (reverted tagged_gone (tagged_removed ∷ [])).cells ≡ only_t ∷ [] ∷ [] }
    ensures operations { (reversion tagged_gone (tagged_removed ∷ [])).drafts ≡ Insert (at 1 1) only_t (codes "a") ∷ [] }
{}

/// Site 1 typed `abc`, and site 2 removed the `b`. Undone, the other two go, redone, these two come back,
/// and undone once more they go again. Where both sites removed the `b`, and each undoes that, it is there
/// twice. A removed character that is there doesn't come back again.
pub fn what_others_removed()
    ensures undone { text_of (reverted without_b abc_typed).cells ≡ codes "\n" }
    ensures operations { (reversion without_b abc_typed).drafts ≡ Delete (span 1 1 1 ∷ span 1 3 3 ∷ []) ∷ [] }
    ensures redone { text_of (reverted (reverted without_b abc_typed) (reverted_group without_b abc_typed)).cells ≡ codes "ac\n" }
    ensures again { let once = reverted without_b abc_typed in
        let group = reverted_group without_b abc_typed in
        text_of (reverted (reverted once group) (reverted_group once group)).cells ≡ codes "\n" }
    ensures twice { text_of (reverted with_b_again (b_removed ∷ [])).cells ≡ codes "abbc\n" }
    ensures visible { text_of (reverted beside_x (c_removed ∷ [])).cells ≡ codes "aXc\n" }
{}
