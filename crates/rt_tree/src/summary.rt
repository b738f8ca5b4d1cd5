// What is kept for a node of the tags on the characters below it.
ghost use Rattle.std.specs.Prelude.{◌≡◌, ◌++◌, ◌∷◌, [], ℕ, ◌+◌, ◌<◌, ◌≤◌, ◌^◌, List, IfSome, Some, false, if◌then◌else◌, is_some, length, true};
ghost use Rattle.std.specs.List.{AllByRecursion};
ghost use Rattle.rt_tags.specs.Borders.{AreToggles, HasRoomForAll, either, one_or_none};
ghost use Rattle.rt_tags.specs.States.{IsState, IsTag, TagStates};
ghost use Rattle.rt_tags.specs.Toggles.{HasRoomFor, count_of, more_tags};
ghost use Rattle.rt_tree.specs.Summaries.{IsSummary, tagged_as};

use rt_tags::{StateId, StateTable, TagId, Toggles};

/// The states of the first and the last visible character, and how many borders each tag has between.
#[derive(Drop)]
pub struct Summary {
    pub first: Option<StateId>,
    pub last: Option<StateId>,
    pub counts: Toggles,
}

// The first of two states, if there is one.
fn either(one: &Option<StateId>, other: &Option<StateId>) -> Option<StateId>
    ensures { result ≡ either one.now other.now }
{
    if one.is_some() { *one } else { *other }
}

impl Summary {
    // There is no character.
    pub(crate) fn clear(&mut self)
        ensures empty { (table : TagStates) → IsSummary table [] self.new }
        ensures capacity { self.new.counts.capacity ≡ self.old.counts.capacity }
    {
        self.first = None;
        self.last = None;
        self.counts.clear();
    }

    // Whether the last character is in a state.
    #[inline(always)]
    fn ends_in(&self, state: StateId) -> bool
        ensures { result ≡ true → self.now.last ≡ Some state }
    {
        self.last == Some(state)
    }

    // A visible run in a state stands behind, whatever the state of the last character.
    #[inline(never)]
    fn push_other(&mut self, states: &StateTable, state: StateId)
        requires last { IfSome self.old.last (IsState states.now) }
        requires state { IsState states.now state }
        requires room { HasRoomForAll states.now self.old.counts }
        requires few { (tag : ℕ) → count_of tag self.old.counts + 2 < 2 ^ 32 }
        ensures pushed { (xs : List ℕ) → IsSummary states.now xs self.old → IsSummary states.now (xs ++ state ∷ []) self.new }
        ensures capacity { self.new.counts.capacity ≡ self.old.counts.capacity }
    {
        self.counts.add_border(states, self.last, Some(state));
        self.first = either(&self.first, &Some(state));
        self.last = Some(state);
    }

    // A visible run in a state stands behind. It changes nothing where the last character is in that state.
    #[inline(always)]
    pub(crate) fn push(&mut self, states: &StateTable, state: StateId)
        requires last { IfSome self.old.last (IsState states.now) }
        requires state { IsState states.now state }
        requires room { HasRoomForAll states.now self.old.counts }
        requires few { (tag : ℕ) → count_of tag self.old.counts + 2 < 2 ^ 32 }
        ensures pushed { (xs : List ℕ) → IsSummary states.now xs self.old → IsSummary states.now (xs ++ state ∷ []) self.new }
        ensures capacity { self.new.counts.capacity ≡ self.old.counts.capacity }
    {
        if self.ends_in(state) {
            return;
        }
        self.push_other(states, state);
    }

    // The characters of another stretch stand behind those that there are.
    pub(crate) fn join(&mut self, states: &StateTable, other: &Summary)
        requires last { IfSome self.old.last (IsState states.now) }
        requires first { IfSome other.now.first (IsState states.now) }
        requires room { HasRoomForAll states.now self.old.counts }
        requires others { (tag : ℕ) → length states.now.names ≤ tag → count_of tag other.now.counts ≡ 0 }
        requires few { (tag : ℕ) → count_of tag self.old.counts + count_of tag other.now.counts + 2 < 2 ^ 32 }
        ensures joined { (xs ys : List ℕ) → IsSummary states.now xs self.old → IsSummary states.now ys other.now
            → IsSummary states.now (xs ++ ys) self.new }
        ensures capacity { self.new.counts.capacity ≡ self.old.counts.capacity }
    {
        self.counts.add_border(states, self.last, other.first);
        // For their clauses alone: the counts stand in the order of their tags.
        self.counts.counts();
        other.counts.counts();
        self.counts.add_all(&other.counts);
        self.first = either(&self.first, &other.first);
        self.last = either(&other.last, &self.last);
    }
}

// Whether a tag is on in a state, or it isn't.
pub(crate) fn state_is(states: &StateTable, tag: TagId, on: bool, state: StateId) -> bool
    requires tag { IsTag states.now tag }
    requires state { IsState states.now state }
    ensures { result ≡ tagged_as states.now tag on state }
{
    if on {
        states.has(state, tag)
    } else {
        !states.has(state, tag)
    }
}

// Whether there is a first state, and it passes.
fn begins(states: &StateTable, tag: TagId, on: bool, first: Option<StateId>) -> bool
    requires tag { IsTag states.now tag }
    requires state { IfSome first (IsState states.now) }
    ensures { result ≡ false → IfSome first (λ state. tagged_as states.now tag on state ≡ false) }
{
    match first {
        Some(state) => state_is(states, tag, on, state),
        None => false,
    }
}

// Whether no character passes, as its summary tells.
pub(crate) fn passes_nowhere(states: &StateTable, tag: TagId, on: bool, summary: &Summary) -> bool
    requires tag { IsTag states.now tag }
    requires state { IfSome summary.now.first (IsState states.now) }
    ensures { (shown : List ℕ) → IsSummary states.now shown summary.now → result ≡ true
        → AllByRecursion (λ state. tagged_as states.now tag on state ≡ false) shown }
{
    summary.counts.of(tag) == 0 && !begins(states, tag, on, summary.first)
}

// The visible characters before and behind a run.
#[derive(Clone, Copy, PartialEq, Eq)]
pub(crate) struct Around {
    pub(crate) before: Option<StateId>,
    pub(crate) after: Option<StateId>,
}

// The state that an entry showed, and the one that it shows now; none where there was or is no visible run.
#[derive(Clone, Copy)]
pub(crate) struct StateChange {
    pub(crate) from: Option<StateId>,
    pub(crate) to: Option<StateId>,
}

impl Summary {
    // Within the stretch one state, or none, has become another, or none: by its neighbours in the stretch, and the toggles that
    // these made with the old one and make with the new one.
    pub(crate) fn replace(
        &mut self,
        around: &Around,
        new: &Option<StateId>,
        minus: &Toggles,
        plus: &Toggles,
    )
        requires room { HasRoomFor (more_tags plus.now.counts self.old.counts.counts) self.old.counts }
        requires few { (tag : ℕ) → count_of tag self.old.counts + count_of tag plus.now < 2 ^ 32 }
        requires less { (tag : ℕ) → count_of tag minus.now ≤ count_of tag self.old.counts }
        ensures counts { (tag : ℕ) → count_of tag self.new.counts + count_of tag minus.now ≡ count_of tag self.old.counts + count_of tag plus.now }
        ensures first { self.new.first ≡ (if is_some around.now.before then self.old.first else either new.now around.now.after) }
        ensures last { self.new.last ≡ (if is_some around.now.after then self.old.last else either new.now around.now.before) }
        ensures capacity { self.new.counts.capacity ≡ self.old.counts.capacity }
    {
        self.counts.add_all(plus);
        self.counts.take_all(minus);
        let first = either(new, &around.after);
        if around.before.is_none() {
            self.first = first;
        }
        let last = either(new, &around.before);
        if around.after.is_none() {
            self.last = last;
        }
    }
}

// The toggles of a state, or of none, between its neighbours.
pub(crate) fn count_around(
    toggles: &mut Toggles,
    states: &StateTable,
    around: &Around,
    own: &Option<StateId>,
)
    requires before { IfSome around.now.before (IsState states.now) }
    requires own { IfSome own.now (IsState states.now) }
    requires after { IfSome around.now.after (IsState states.now) }
    requires room { length states.now.names ≤ toggles.old.capacity }
    ensures toggles { AreToggles states.now (one_or_none around.now.before ++ (one_or_none own.now ++ one_or_none around.now.after)) toggles.new }
    ensures capacity { toggles.new.capacity ≡ toggles.old.capacity }
{
    toggles.clear();
    if own.is_none() {
        toggles.add_border(states, around.before, around.after);
        return;
    }
    toggles.add_border(states, around.before, *own);
    toggles.add_border(states, *own, around.after);
}
