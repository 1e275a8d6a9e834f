ghost use Rattle.std.specs.Prelude.{◌≡◌, ℕ, List, map};
ghost use Rattle.cd_wire.specs.Requests.{BeginsRequest};
ghost use Rattle.cd_wire.specs.declared.request.Request.{Request};
ghost use Rattle.cd_log.specs.Lines.{visible};

/// The method and the target of a request that was read from a connection are in its line as they came.
pub fn requests_are_logged_as_they_came()
    ensures method { (input rest : List ℕ) (request : Request) → BeginsRequest input request rest → map visible request.method ≡ request.method }
    ensures target { (input rest : List ℕ) (request : Request) → BeginsRequest input request rest → map visible request.target ≡ request.target }
{}
