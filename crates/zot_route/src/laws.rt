//! What holds of paths and of messages.
ghost use Rattle.std.specs.Prelude.{◌≡◌, ◌≤◌, ℕ, List, length};
ghost use Rattle.zot_head.specs.declared.head.Head.{Head as AHead};
ghost use Rattle.zot_model.specs.Fits.{Declines};
ghost use Rattle.zot_model.specs.Valid.{IsValid, body_limit};
ghost use Rattle.zot_route.specs.Path.{IsPath};
ghost use Rattle.zot_route.specs.Routed.{IfRefused, IfRequest};
ghost use Rattle.zot_route.specs.Routes.{HidesAlike, Routes};
ghost use Rattle.zot_route.specs.declared.form.Form.{Form as AForm};
ghost use Rattle.zot_route.specs.declared.routed.Routed.{Routed as ARouted};

/// A path has at most one form, one name and one text.
pub fn path_is_one()
    ensures { (segments : List (List ℕ)) (form other : AForm) (name more : List (List ℕ)) (text words : List ℕ)
        → IsPath segments form name text → IsPath segments other more words → (form ≡ other) × (name ≡ more) × (text ≡ words) }
{}

/// A message has at most one outcome.
pub fn outcome_is_one()
    ensures { (head : AHead) (body : List ℕ) (routed other : ARouted) → Routes head body routed → Routes head body other → routed ≡ other }
{}

/// Each request that a message gives is valid, where its body keeps its limit, each refusal is one that a message may have, and on a repository a request's call is one of HEAD just where the message's method is.
pub fn outcomes_are_sound()
    ensures { (head : AHead) (body : List ℕ) (routed : ARouted) → Routes head body routed
        → (length body ≤ body_limit → IfRequest routed IsValid) × IfRefused routed Declines × IfRequest routed (HidesAlike head) }
{}
