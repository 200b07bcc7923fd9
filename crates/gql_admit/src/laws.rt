//! Laws of what contracts say, as contracts of functions without parameters.
ghost use Rattle.std.specs.Prelude.{◌≡◌};
ghost use Rattle.gql_fields.specs.Terms.{Terms};
ghost use Rattle.gql_admit.specs.Prepared.{IsPrepared, Prepared};
ghost use Rattle.gql_admit.specs.Stages.{Staged, StagesGive};
ghost use Rattle.gql_request.specs.declared.request.Request.{Request as OneRequest};

/// The stages give one thing of a request, by the terms that it is admitted by.
pub fn stages_give_one_thing()
    ensures { (terms : Terms) (request : OneRequest) (one other : Staged)
        → StagesGive terms request one → StagesGive terms request other → one ≡ other }
{}

/// A request has one preparation, whatever site it is admitted at.
pub fn one_preparation_of_a_request()
    ensures { (terms : Terms) (request : OneRequest) (one other : Prepared)
        → IsPrepared terms request one → IsPrepared terms request other → one ≡ other }
{}
