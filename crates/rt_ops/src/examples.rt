// Worked examples of the rules and of the file, each a clause that computes.
ghost use Rattle.std.specs.Prelude.{◌≡◌, ◌-◌, ◌^◌, true, false, [], ◌∷◌, codes, Ok, Err};
ghost use Rattle.std.specs.List.{repeat};
ghost use Rattle.rt_stamps.specs.declared.fault.Fault.TheVariants.{BadMagic, BadVersion, Truncated};
ghost use Rattle.rt_ops.specs.declared.version.Version.TheVariants.{One, Two};
ghost use Rattle.rt_stamps.specs.declared.stamp.TheConstants.{ROOT};
ghost use Rattle.rt_ops.specs.Examples.{hex, made, may_be_deleted, may_be_listed, may_be_tagged, puts_ab, puts_c, span, tags_a, takes_b};
ghost use Rattle.rt_ops.specs.File.{record_of, version_of};
ghost use Rattle.rt_ops.specs.Operations.{Delete, Insert, has_bad_stamp};
ghost use Rattle.rt_ops.specs.Reading.{head_of, may_follow, stamp_of_last};

/// The spans of an operation stand by site, and at one site by count, with at least one count between two.
pub fn spans()
    ensures one { may_be_deleted (span 1 3 3 ∷ []) ≡ true }
    ensures none { may_be_deleted [] ≡ false }
    ensures backwards { may_be_deleted (span 1 3 2 ∷ []) ≡ false }
    ensures count_between { may_be_deleted (span 1 1 2 ∷ span 1 4 5 ∷ []) ≡ true }
    ensures touching { may_be_deleted (span 1 1 2 ∷ span 1 3 5 ∷ []) ≡ false }
    ensures overlapping { may_be_deleted (span 1 1 3 ∷ span 1 3 5 ∷ []) ≡ false }
    ensures falling { may_be_deleted (span 1 4 5 ∷ span 1 1 2 ∷ []) ≡ false }
    ensures two_sites { may_be_deleted (span 1 4 5 ∷ span 2 1 2 ∷ []) ≡ true }
    ensures falling_sites { may_be_deleted (span 2 1 2 ∷ span 1 4 5 ∷ []) ≡ false }
    ensures touching_at_last { may_be_deleted (span 1 1 2 ∷ span 2 1 2 ∷ span 2 3 3 ∷ []) ≡ false }
    ensures tagged { may_be_tagged (span 1 1 2 ∷ span 1 4 5 ∷ []) ≡ true }
    ensures tagged_touching { may_be_tagged (span 1 1 2 ∷ span 1 3 5 ∷ []) ≡ false }
    ensures tagged_falling { may_be_tagged (span 1 4 5 ∷ span 1 1 2 ∷ []) ≡ false }
{}

/// The tags that an Insert lists rise strictly by bytes, and `sel` is none of them.
pub fn tags()
    ensures none { may_be_listed [] ≡ true }
    ensures rising { may_be_listed (codes "a" ∷ codes "ab" ∷ codes "b" ∷ []) ≡ true }
    ensures falling { may_be_listed (codes "b" ∷ codes "a" ∷ []) ≡ false }
    ensures twice { may_be_listed (codes "a" ∷ codes "a" ∷ []) ≡ false }
    ensures sel { may_be_listed (codes "sel" ∷ []) ≡ false }
{}

/// The version that a file's first eight bytes tell, or their fault; of all bytes where there are fewer.
#[tactic(auto, unfolding(crate::specs::Versions::file_name, crate::specs::File::magic))]
pub fn heads()
    ensures version_one { head_of (codes "RGATEXT1") ≡ Ok One }
    ensures version_two { head_of (codes "RGATEXT2") ≡ Ok Two }
    ensures version_three { head_of (codes "RGATEXT3") ≡ Err BadVersion }
    ensures empty { head_of [] ≡ Err Truncated }
    ensures no_version { head_of (codes "RGATEXT") ≡ Err Truncated }
    ensures other_name { head_of (codes "RGATEX11") ≡ Err BadMagic }
    ensures front_of_other { head_of (codes "RB") ≡ Err BadMagic }
{}

/// The bytes of a record: its length, then kind, count, site, `prev` and body. In the second version each site has four.
pub fn records()
    ensures insert { record_of One puts_ab ≡ hex (codes "000000200100000000000000010001000000000000000000000000000000000000006162") }
    ensures delete { record_of One takes_b ≡ hex (codes "000000290200000000000000030001000000000000000200000001000100000000000000020000000000000002") }
    ensures tag { record_of One tags_a ≡ hex (codes "0000002c0300000000000000030001000000000000000201017400000001000100000000000000010000000000000001") }
    ensures insert_of_two { record_of Two puts_ab ≡ hex (codes "00000024010000000000000001000000010000000000000000000000000000000000000000006162") }
    ensures wide_site { record_of Two puts_c ≡ hex (codes "000000230100000000000000030001000000000000000000000000000000000002000000010063") }
{}

/// Which version operations are written in: the first, but for a site above 65,535, also a named one, or an Insert of more than
/// 64 tags.
pub fn versions()
    ensures none { version_of [] ≡ One }
    ensures first { version_of (puts_ab ∷ takes_b ∷ []) ≡ One }
    ensures wide { version_of (puts_ab ∷ puts_c ∷ []) ≡ Two }
    ensures greatest_of_one { version_of (made 1 65535 0 (Insert ROOT [] (codes "a")) ∷ []) ≡ One }
    ensures least_of_two { version_of (made 1 65536 0 (Insert ROOT [] (codes "a")) ∷ []) ≡ Two }
    ensures named { version_of (made 3 1 2 (Delete (span 1 2 2 ∷ span 65536 1 1 ∷ [])) ∷ []) ≡ Two }
    ensures after { version_of (made 3 1 2 (Insert (record { count = 1; site = 65536 }) [] (codes "a")) ∷ []) ≡ Two }
    ensures tags_of_one { version_of (made 1 1 0 (Insert ROOT (repeat 64 (codes "t" ∷ [])) (codes "a")) ∷ []) ≡ One }
    ensures tags_of_two { version_of (made 1 1 0 (Insert ROOT (repeat 65 (codes "t" ∷ [])) (codes "a")) ∷ []) ≡ Two }
{}

/// Stamps of a file's operations rise: by count, and at one count by site.
pub fn orders()
    ensures first { may_follow (stamp_of_last []) takes_b ≡ true }
    ensures greater { may_follow (stamp_of_last (puts_ab ∷ [])) takes_b ≡ true }
    ensures last { may_follow (stamp_of_last (puts_ab ∷ takes_b ∷ [])) tags_a ≡ false }
    ensures next_site { may_follow (stamp_of_last (takes_b ∷ [])) (made 3 2 0 (Delete [])) ≡ true }
    ensures lesser { may_follow (stamp_of_last (takes_b ∷ [])) puts_ab ≡ false }
{}

/// Which stamps of an operation are bad.
pub fn stamps()
    ensures sound { has_bad_stamp puts_ab ≡ false }
    ensures no_site { has_bad_stamp (made 1 0 0 (Insert ROOT [] (codes "a"))) ≡ true }
    ensures no_count { has_bad_stamp (made 0 1 0 (Insert ROOT [] (codes "a"))) ≡ true }
    ensures greatest { has_bad_stamp (made (2 ^ 48 - 1) 1 0 (Insert ROOT [] (codes "a"))) ≡ false }
    ensures past_the_greatest { has_bad_stamp (made (2 ^ 48 - 1) 1 0 (Insert ROOT [] (codes "ab"))) ≡ true }
    ensures prev_of_its_own { has_bad_stamp (made 1 1 1 (Insert ROOT [] (codes "a"))) ≡ true }
    ensures after_itself { has_bad_stamp (made 1 1 0 (Insert (record { count = 1; site = 1 }) [] (codes "a"))) ≡ true }
    ensures span_before { has_bad_stamp takes_b ≡ false }
    ensures span_of_its_own { has_bad_stamp (made 3 1 2 (Delete (span 1 2 3 ∷ []))) ≡ true }
{}
