// What keeping replies comes to: laws of the definitions that the contracts cite, each a clause. The function does nothing.
ghost use Rattle.dup_cache.specs.Laws.{AnswersAgain, CallKeysDiffer, OthersKeepAnswers, UseKeepsAnswers};

/// A key tells its call. A call whose reply was kept is answered with it; keeping it changes what another call is answered
/// with only where that one's reply goes, and using a call changes no answer.
pub fn call_laws()
    ensures keys { CallKeysDiffer }
    ensures again { AnswersAgain }
    ensures used { UseKeepsAnswers }
    ensures others { OthersKeepAnswers }
{}
