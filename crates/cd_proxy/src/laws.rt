//! What the definitions mean beyond what a call says, each as a call that does nothing.
ghost use Rattle.std.specs.Prelude.{◌≡◌, ℕ, Bool, false, List, ◌++◌};
ghost use Rattle.cd_wire.specs.declared.answer.Answer.{Answer as Passed};
ghost use Rattle.cd_proxy.specs.declared.limits.TheConstants.{MAX_INFORMATIONAL};
ghost use Rattle.cd_proxy.specs.Responses.{BeginsResponse};

/// The limits of a response that are not those of a request, as numbers.
pub fn limits_are()
    ensures informational { MAX_INFORMATIONAL ≡ 8 }
{}

/// Bytes begin with one response at most.
pub fn responses_are_unique()
    ensures { (input : List ℕ) (ended head : Bool) (answer other : Passed) (rest left : List ℕ)
        → BeginsResponse input ended head answer rest → BeginsResponse input ended head other left
        → (answer ≡ other) × (rest ≡ left) }
{}

/// A response that bytes begin with before their end is known stays when more bytes come, and when they end: what follows it is
/// what followed it, and then these.
pub fn responses_stay()
    ensures { (input more : List ℕ) (ended head : Bool) (answer : Passed) (rest : List ℕ)
        → BeginsResponse input false head answer rest → BeginsResponse (input ++ more) ended head answer (rest ++ more) }
{}
