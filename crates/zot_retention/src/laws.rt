//! Laws of what a policy keeps.
ghost use Rattle.std.specs.Prelude.{◌≡◌, ◌≤◌, ℕ, true, List};
ghost use Rattle.zot_retention.specs.Kept.{is_kept, kept_rows};
ghost use Rattle.zot_retention.specs.declared.policy.Policy.{Policy};
ghost use Rattle.zot_retention.specs.declared.tag_row.TagRow.{TagRow};

/// The law that kept tags stay kept: a policy keeps all of the tags that it keeps, at the same moment.
pub fn kept_tags_stay()
    ensures { (policy : Policy) (tags : List TagRow) (moment : ℕ) →
        kept_rows policy (kept_rows policy tags moment) moment ≡ kept_rows policy tags moment }
{}

/// The law that time alone brings no tag back: what a policy keeps later, of the same tags, it keeps before.
pub fn time_keeps_no_more()
    ensures { (policy : Policy) (tags : List TagRow) (now later : ℕ) (row : TagRow) → now ≤ later →
        is_kept policy tags later row ≡ true → is_kept policy tags now row ≡ true }
{}
