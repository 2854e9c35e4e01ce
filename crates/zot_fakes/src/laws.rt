//! A law of the lists of calls that are to fail.
ghost use Rattle.std.specs.Prelude.{◌≡◌, false, []};
ghost use Rattle.zot_fakes.specs.Calls.{Count, counted, fails, one_more};

/// Where the list is empty no call fails by it, and the count of faults stays.
pub fn empty_list_fails_none()
    ensures { (count : Count) → count.failing ≡ [] → (fails count ≡ false) × (counted count ≡ record count { made = one_more count.made }) }
{}
