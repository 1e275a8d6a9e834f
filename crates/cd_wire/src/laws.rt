//! What the definitions mean beyond what a call says, each as a call that does nothing.
ghost use Rattle.cd_wire.specs.declared.limits.TheConstants.{MAX_HEAD_BYTES, MAX_HEAD_FIELDS, MAX_BODY_BYTES, MAX_CHUNK_LINE_BYTES};
ghost use Rattle.std.specs.Prelude.{◌≡◌, ℕ, Bool, true, false, List, [], ◌∷◌, ◌++◌, filter, IsPermutation};
ghost use Rattle.std.specs.List.Sorted.{IsSortedByKey};
ghost use Rattle.std.specs.Ordering.{nat_cmp};
ghost use Rattle.std.specs.Cmp.Lexicographic.{slice_cmp};
ghost use Rattle.cd_wire.specs.Fields.{is_named};
ghost use Rattle.cd_wire.specs.Render.{by_name};
ghost use Rattle.cd_wire.specs.Requests.{BeginsRequest, Splits, HasNoRequest, HasRequests, Tail, HasTail, EndsInBody, clean, cut, refused};
ghost use Rattle.cd_wire.specs.Intake.{IsNext, IsLook};
ghost use Rattle.cd_wire.specs.declared.intake.Look.{Look};
ghost use Rattle.cd_wire.specs.declared.intake.Look.TheVariants as look;
ghost use Rattle.cd_wire.specs.declared.intake.Next.{Next};
ghost use Rattle.cd_wire.specs.declared.intake.Next.TheVariants as next;
ghost use Rattle.cd_wire.specs.declared.fault.WireFault.{WireFault};
ghost use Rattle.cd_wire.specs.declared.fields.Field.{Field};
ghost use Rattle.cd_wire.specs.declared.request.Request.{Request};

/// The limits, which the contracts cite by name, as numbers.
pub fn limits_are()
    ensures head { MAX_HEAD_BYTES ≡ 16384 }
    ensures fields { MAX_HEAD_FIELDS ≡ 64 }
    ensures body { MAX_BODY_BYTES ≡ 8388608 }
    ensures chunk_line { MAX_CHUNK_LINE_BYTES ≡ 1024 }
{}

/// An input has one list of requests at most, and one reason why no further one follows.
pub fn requests_are_unique()
    ensures requests { (input : List ℕ) (ended : Bool) (requests others : List Request) (tail end : Tail)
        → HasRequests input ended requests tail → HasRequests input ended others end
        → requests ≡ others }
    ensures tail { (input : List ℕ) (ended : Bool) (requests others : List Request) (tail end : Tail)
        → HasRequests input ended requests tail → HasRequests input ended others end
        → tail ≡ end }
{}

/// Each input that has ended has a list of requests and a reason why no further one follows: none is without.
pub fn requests_exist()
    ensures { (input : List ℕ)
        → ¬ ((requests : List Request) (tail : Tail) → ¬ (HasRequests input true requests tail)) }
{}

/// The requests of an input stay when more bytes come, and when it ends: those of its beginning are the beginning of its own.
/// This holds of all requests of the beginning, and of those that were taken so far.
pub fn requests_stay()
    ensures all { (input more : List ℕ) (ended : Bool) (requests others : List Request) (tail end : Tail)
        → HasRequests input false requests tail → HasRequests (input ++ more) ended others end
        → (later : List Request) × (others ≡ requests ++ later) }
    ensures taken { (input more : List ℕ) (ended : Bool) (requests others : List Request) (left : List ℕ) (end : Tail)
        → Splits input requests left → HasRequests (input ++ more) ended others end
        → (later : List Request) × (others ≡ requests ++ later) }
{}

/// What a caller of `Intake` keeps in mind over its calls: all that it pushed is the requests that were taken, and then the
/// bytes that are left. A push and a request that is taken keep it, and at the end it tells the requests of the input.
pub fn splits_stay()
    ensures push { (pushed : List ℕ) (requests : List Request) (left piece : List ℕ)
        → Splits pushed requests left → Splits (pushed ++ piece) requests (left ++ piece) }
    ensures taken { (pushed : List ℕ) (requests : List Request) (request : Request) (left rest : List ℕ)
        → Splits pushed requests left → BeginsRequest left request rest
        → Splits pushed (requests ++ request ∷ []) rest }
    ensures end { (pushed : List ℕ) (requests : List Request)
        → Splits pushed requests [] → HasRequests pushed true requests clean }
    ensures other { (pushed : List ℕ) (requests : List Request) (left : List ℕ) (ended : Bool) (tail : Tail)
        → Splits pushed requests left → HasNoRequest left → HasTail left ended tail
        → HasRequests pushed ended requests tail }
{}

/// Where `look` says that a request is whole, `next` gives it, and so it does only there.
pub fn looks_are_kept()
    ensures whole { (bytes new : List ℕ) (ended : Bool) (found : Next) → IsLook bytes ended look.Whole → IsNext bytes ended new found
        → (request : Request) × (found ≡ next.Request request) }
    ensures only { (bytes new : List ℕ) (ended : Bool) (request : Request) (found : Look) → IsNext bytes ended new (next.Request request)
        → IsLook bytes ended found → found ≡ look.Whole }
{}

/// No bytes begin with a request.
pub fn no_bytes_are_no_request()
    ensures { HasNoRequest [] }
{}

/// The order in which `render` writes fields: none is lost or added, their names rise, and the fields of one name stay in
/// the order that they had. There is no other such list.
pub fn fields_go_by_name()
    ensures none_lost { (fields : List Field) → IsPermutation fields (by_name fields) }
    ensures names_rise { (fields : List Field)
        → IsSortedByKey (λ field. field.name) (slice_cmp nat_cmp) (by_name fields) }
    ensures order_kept { (fields : List Field) (name : List ℕ)
        → filter (is_named name) (by_name fields) ≡ filter (is_named name) fields }
    ensures only_one { (fields others : List Field)
        → IsSortedByKey (λ field. field.name) (slice_cmp nat_cmp) others
        → ((name : List ℕ) → filter (is_named name) others ≡ filter (is_named name) fields)
        → others ≡ by_name fields }
{}
