//! The answers of questions.

ghost use Rattle.std.specs.Prelude.{◌≡◌, None, IfOk, IfErr, OnOk};
ghost use Rattle.hp_arr.specs.Flats.{flats, total_rank};
ghost use Rattle.hp_arr.specs.Moebius.{characteristic, poincare};
ghost use Rattle.hp_arr.specs.Operations.{deletion, restriction};
ghost use Rattle.hp_exterior.specs.Exterior.{Ext as ExtOf};
ghost use Rattle.hp_os.specs.OrlikSolomon.{IsElement, IsNormalForm};
ghost use Rattle.hp_render.specs.declared.answer.Answer.{Answer};
ghost use Rattle.hp_script.specs.Lists.{QuestionIsShort};
ghost use Rattle.hp_script.specs.declared.command.Command.TheVariants.{Ask};
ghost use Rattle.hp_script.specs.declared.command.Question.{Question};
ghost use Rattle.hp_session.specs.Answers.{unless_many_flats, circuits_or_limit, nbc_or_limit, AreAomotoNumbersOrLimit};
ghost use Rattle.hp_session.specs.Expressions.{expression_value};
ghost use Rattle.hp_groebner.specs.LimitRules.{AreLimits};
ghost use Rattle.hp_session.specs.Questions.{IsRightAnswer};
ghost use Rattle.hp_session.specs.Refused.{expression_refusal, weights_refusal};
ghost use Rattle.hp_session.specs.Steps.{Answers};
ghost use Rattle.hp_session.specs.Stops.{StopsBy, ask_refusal, question_refusal};

use crate::building::{elements_of, index};
use crate::central;
use crate::derivations::{der, gb};
use crate::expressions::expression;
use crate::resolutions::{free, resolve};
use crate::session::Session;
use crate::stop::Stop;
use hp_algebra::{FiniteField, List, NoMem};
use hp_aomoto::AomotoStop;
use hp_arr::Arr;
use hp_circuits::{CircuitStop, NbcStop};
use hp_exterior::Ext;
use hp_flats::FlatStop;
use hp_groebner::Limits;
use hp_os::normal_form;
use hp_render::{Answer, AskWord, LimitKind, Refusal};
use hp_script::{Name, Product, Question};
use std::alloc::Global;

/// The answer of a question about the arrangement of this name.
pub fn answered<K: FiniteField>(
    alloc: Global,
    session: &Session<K>,
    name: &Name,
    question: &Question,
) -> Result<Answer<K>, Stop>
    requires { QuestionIsShort question.now }
    ensures accepted { OnOk result (ask_refusal session.now name.now question.now ≡ None) }
    ensures right { IfOk result (Answers K.ring K.inverse K.numbers session.now (Ask name.now question.now)) }
    ensures stop { IfErr result (StopsBy (ask_refusal session.now name.now question.now)) }
{
    let arr = session.known(alloc, name)?;
    answer(alloc, session.limits(), arr, question)
}

/// The answer of a question about the arrangement, under the limits.
fn answer<K: FiniteField>(
    alloc: Global,
    limits: Limits,
    arr: &Arr<K>,
    question: &Question,
) -> Result<Answer<K>, Stop>
    requires short { QuestionIsShort question.now }
    requires limits { AreLimits limits }
    ensures accepted { OnOk result (question_refusal arr.now question.now ≡ None) }
    ensures right { IfOk result (IsRightAnswer K.ring K.inverse K.numbers limits arr.now question.now) }
    ensures stop { IfErr result (StopsBy (question_refusal arr.now question.now)) }
{
    match question {
        Question::Hyperplanes => Ok(hyperplanes(alloc, arr)?),
        Question::Point => Ok(Answer::Point(List::of(arr.least_point_off(alloc)?))),
        Question::Rank => Ok(rank(alloc, arr)?),
        Question::Flats => Ok(flats(alloc, arr)?),
        Question::Poincare => Ok(poincare(alloc, arr)?),
        Question::Characteristic => Ok(characteristic(alloc, arr)?),
        Question::Triple(i) => triple(alloc, arr, *i),
        Question::Circuits => Ok(circuits(alloc, arr)?),
        Question::Nbc => Ok(nbc(alloc, arr)?),
        Question::Normal(products) => normal(alloc, arr, products.as_slice()),
        Question::Aomoto(weights) => aomoto(alloc, arr, weights.numbers()),
        Question::Gb(row) => gb(alloc, &limits, arr, row),
        Question::Der(row) => der(alloc, &limits, arr, row),
        Question::Resolve(row) => resolve(alloc, &limits, arr, row),
        Question::Free(row) => free(alloc, &limits, arr, row),
    }
}

/// The dimension and the forms of the arrangement.
fn hyperplanes<K: FiniteField>(alloc: Global, arr: &Arr<K>) -> Result<Answer<K>, NoMem>
    ensures { IfOk result (λ a. a ≡ Answer.Hyperplanes arr.now.dim arr.now.forms) }
{
    let mut forms = Vec::new(alloc);
    for i in 1..arr.len() + 1 {
        forms.push(List::of(Vec::from_slice(alloc, arr.form(i))?))?;
    }
    Ok(Answer::Hyperplanes {
        dim: arr.dim(),
        forms: List::of(forms),
    })
}

/// The rank of the arrangement.
fn rank<K: FiniteField>(alloc: Global, arr: &Arr<K>) -> Result<Answer<K>, NoMem>
    ensures { IfOk result (λ a. a ≡ Answer.Rank (total_rank K.ring K.numbers arr.now)) }
{
    Ok(Answer::Rank(central::total_rank(alloc, arr)?))
}

/// The flats of the arrangement, or that there are too many.
fn flats<K: FiniteField>(alloc: Global, arr: &Arr<K>) -> Result<Answer<K>, NoMem>
    ensures { let all = Answer.Flats (flats K.ring K.numbers arr.now) in
        IfOk result (λ a. a ≡ unless_many_flats K.ring K.numbers arr.now AskWord.Flats all) }
{
    match central::flats(alloc, arr) {
        Ok(flats) => Ok(Answer::Flats(List::of(flats))),
        Err(stop) => many_flats(stop, AskWord::Flats),
    }
}

/// The Poincaré polynomial of the arrangement, or that there are too many flats.
fn poincare<K: FiniteField>(alloc: Global, arr: &Arr<K>) -> Result<Answer<K>, NoMem>
    ensures { let pi = Answer.Poincare (poincare K.ring K.numbers arr.now) in
        IfOk result (λ a. a ≡ unless_many_flats K.ring K.numbers arr.now AskWord.Poincare pi) }
{
    match central::poincare(alloc, arr) {
        Ok(pi) => Ok(Answer::Poincare(List::of(pi))),
        Err(stop) => many_flats(stop, AskWord::Poincare),
    }
}

/// The characteristic polynomial of the arrangement, or that there are too many flats.
fn characteristic<K: FiniteField>(alloc: Global, arr: &Arr<K>) -> Result<Answer<K>, NoMem>
    ensures { let chi = Answer.Characteristic (characteristic K.ring K.numbers arr.now) in
        IfOk result (λ a. a ≡ unless_many_flats K.ring K.numbers arr.now AskWord.Characteristic chi) }
{
    match central::characteristic(alloc, arr) {
        Ok(chi) => Ok(Answer::Characteristic(List::of(chi))),
        Err(stop) => many_flats(stop, AskWord::Characteristic),
    }
}

/// The Poincaré polynomials of the arrangement, of its deletion and of its restriction at the hyperplane of this
/// number, or that the arrangement has too many flats.
fn triple<K: FiniteField>(alloc: Global, arr: &Arr<K>, i: u64) -> Result<Answer<K>, Stop>
    ensures accepted { OnOk result (question_refusal arr.now (Question.Triple i) ≡ None) }
    ensures right { let pi = poincare K.ring K.numbers in
        let triple = Answer.Triple (pi arr.now) (pi (deletion arr.now i)) (pi (restriction K.ring K.inverse arr.now i)) in
        IfOk result (λ a. a ≡ unless_many_flats K.ring K.numbers arr.now AskWord.Triple triple) }
    ensures stop { IfErr result (StopsBy (question_refusal arr.now (Question.Triple i))) }
{
    if arr.dim() == 1 {
        return Err(Stop::Refused(Refusal::Dimension));
    }
    let i = index(arr, i)?;
    match central::triple(alloc, arr, i) {
        Ok(pi) => Ok(Answer::Triple {
            whole: pi.whole,
            deleted: pi.deleted,
            restricted: pi.restricted,
        }),
        Err(stop) => Ok(many_flats(stop, AskWord::Triple)?),
    }
}

/// The circuits of the arrangement, or that there are too many.
fn circuits<K: FiniteField>(alloc: Global, arr: &Arr<K>) -> Result<Answer<K>, NoMem>
    ensures { IfOk result (λ a. a ≡ circuits_or_limit K.ring K.numbers arr.now) }
{
    match hp_circuits::circuits(alloc, arr) {
        Ok(sets) => Ok(Answer::Circuits(List::of(sets))),
        Err(CircuitStop::TooMany) => Ok(Answer::Limit {
            asked: AskWord::Circuits,
            kind: LimitKind::Circuits,
        }),
        Err(CircuitStop::Memory) => Err(NoMem),
    }
}

/// The sets that contain no broken circuit, or that there are too many.
fn nbc<K: FiniteField>(alloc: Global, arr: &Arr<K>) -> Result<Answer<K>, NoMem>
    ensures { IfOk result (λ a. a ≡ nbc_or_limit K.ring K.numbers arr.now) }
{
    match hp_circuits::nbc(alloc, arr) {
        Ok(sets) => Ok(Answer::Nbc(List::of(sets))),
        Err(NbcStop::TooMany) => Ok(Answer::Limit {
            asked: AskWord::Nbc,
            kind: LimitKind::Nbc,
        }),
        Err(NbcStop::Memory) => Err(NoMem),
    }
}

/// The normal form of the value of an expression.
fn normal<K: FiniteField>(
    alloc: Global,
    arr: &Arr<K>,
    products: &[Product],
) -> Result<Answer<K>, Stop>
    ensures accepted { OnOk result (expression_refusal arr.now products.now ≡ None) }
    ensures right { IfOk result (λ a. (r : ExtOf K) × IsNormalForm K.ring K.numbers arr.now (expression_value K.ring products.now) r × (a ≡ Answer.Normal r)) }
    ensures stop { IfErr result (StopsBy (expression_refusal arr.now products.now)) }
{
    let value = expression(alloc, arr, products)?;
    Ok(reduced(alloc, arr, &value)?)
}

/// The normal form of an element.
fn reduced<K: FiniteField>(alloc: Global, arr: &Arr<K>, x: &Ext<K>) -> Result<Answer<K>, NoMem>
    requires { IsElement K.ring K.numbers arr.now x.now }
    ensures { IfOk result (λ a. (r : ExtOf K) × IsNormalForm K.ring K.numbers arr.now x.now r × (a ≡ Answer.Normal r)) }
{
    let form = normal_form(alloc, arr, x)?;
    Ok(Answer::Normal(List::of(Vec::from_slice(alloc, form.terms())?)))
}

/// The dimensions of the cohomology of the Aomoto complex with these weights, or that of some size there are too many
/// sets that contain no broken circuit.
fn aomoto<K: FiniteField>(alloc: Global, arr: &Arr<K>, weights: &[i64]) -> Result<Answer<K>, Stop>
    ensures accepted { OnOk result (weights_refusal arr.now weights.now ≡ None) }
    ensures right { IfOk result (AreAomotoNumbersOrLimit K.ring K.numbers arr.now weights.now) }
    ensures stop { IfErr result (StopsBy (weights_refusal arr.now weights.now)) }
{
    if weights.len() != arr.len() as usize {
        return Err(Stop::Refused(Refusal::BadList));
    }
    let elements = elements_of(alloc, weights)?;
    match hp_aomoto::aomoto(alloc, arr, elements.as_slice()) {
        Ok(dimensions) => Ok(Answer::Aomoto(List::of(dimensions))),
        Err(AomotoStop::TooMany) => Ok(Answer::Limit {
            asked: AskWord::Aomoto,
            kind: LimitKind::Aomoto,
        }),
        Err(AomotoStop::Memory) => Err(Stop::Memory),
    }
}

/// The answer where there are too many flats for the question of that word.
fn many_flats<K: FiniteField>(stop: FlatStop, asked: AskWord) -> Result<Answer<K>, NoMem>
    ensures limit { IfOk result (λ a. a ≡ Answer.Limit asked LimitKind.Flats) }
    ensures many { OnOk result (stop ≡ FlatStop.TooMany) }
{
    match stop {
        FlatStop::TooMany => Ok(Answer::Limit {
            asked,
            kind: LimitKind::Flats,
        }),
        FlatStop::Memory => Err(NoMem),
    }
}
