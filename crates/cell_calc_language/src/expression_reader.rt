//! Parses expressions with an explicit stack.

ghost use Rattle.std.specs.Prelude.{◌≡◌, ◌<◌, ◌+◌, ◌*◌, ◌++◌, [], ◌∷◌, length, vec_len, IfOk, IfErr};
ghost use Rattle.cell_calc_language.specs.declared.token_parsing.ParseStop.TheVariants.{Memory};
ghost use Rattle.cell_calc_language.specs.declared.expression_reader.ParserFrame.TheVariants as frame;
ghost use Rattle.cell_calc_grammar.specs.declared.token.Sign.TheVariants.{OpenParenthesis};
ghost use Rattle.cell_calc_grammar.specs.Postfix.{postfix};
ghost use Rattle.cell_calc_grammar.specs.TokensRead.{ParserState, Operand, Expression, Got, ParserStateReadsAs, TokenIsNotSign};
ghost use Rattle.cell_calc_language.specs.Stopping.{ParserStopsWhereReadingStops, RestFollowsSign, RestFollowsCallOpening};
ghost use Rattle.cell_calc_grammar.specs.Token.{head_token, name_token_at_column};
ghost use Rattle.cell_calc_grammar.specs.Postfix.{tree_of_steps};
ghost use Rattle.cell_calc_language.specs.parts.Waiting.{LastStepsAreOperandForState, ActionLeadsToOutcomeOrStop, ActionContinuesWaitingStates, ActionContinuesWaitingFrame, ActionLeavesAtMostWork, waiting_frames, frames_latest_first, tokens_left_by_action, reader_work_bound};

use crate::token_parsing::{
    ParseStop, name_copy, read_both_offsets, split_first_token, split_operator_of_level,
    tokens_after_sign,
};
use cell_calc_grammar::calc_fault::CalcKind;
use cell_calc_grammar::function::{Function, accepts_argument_count, function_with_name};
use cell_calc_grammar::map_name::MapNameAtColumn;
use cell_calc_grammar::operator::{Operator, TOP_OPERATOR_LEVEL, right_operand_level};
use cell_calc_grammar::step::Step;
use cell_calc_grammar::token::{Sign, Token, TokenAtColumn};
use cell_core_values::name::Name;
use std::alloc::Global;

/// An unfinished part of an expression, which waits for the operand or expression that is being read.
#[derive(Clone, Copy)]
enum ParserFrame<'a> {
    Negated,
    Not,
    /// An expression of this level, whose first operand is being read.
    Level(u32),
    /// An expression of this level, whose right operand is being read. The steps already contain the left operand.
    Joined(u32, Operator),
    /// An expression that may be a condition, which is being read. `?` may follow it.
    Choice,
    /// A choice, whose value for a true condition is being read.
    AfterQuestion,
    /// A choice, whose value for a false condition is being read.
    AfterColon,
    /// An expression in parentheses, which is being read.
    Parenthesis,
    /// A call with `count` complete arguments, whose next argument is being read. The call begins at `from`.
    Call {
        function: Function,
        from: &'a [TokenAtColumn],
        count: usize,
    },
}

/// The next action of the reader, and the remaining tokens.
#[derive(Clone, Copy)]
enum ReaderAction<'a> {
    /// Read an operand.
    Operand(&'a [TokenAtColumn]),
    /// Continue after an operand or a larger part.
    After(&'a [TokenAtColumn]),
}

/// The state of the reader: the steps so far, and the unfinished parts.
///
/// The unfinished parts are in a list, because a recursive reader needed stack for each level: 1.7 MB for 998 open
/// parentheses.
#[derive(Drop)]
struct ExpressionReader<'a> {
    frames: Vec<ParserFrame<'a>>,
    steps: Vec<Step<MapNameAtColumn>>,
}

fn push_frame<'a>(
    frames: &mut Vec<ParserFrame<'a>>,
    frame: ParserFrame<'a>,
) -> Result<(), ParseStop<'a>>
    ensures ok { IfOk result (λ _. frames_latest_first frames.new.items
        ≡ frame.entry ∷ frames_latest_first frames.old.items) }
    ensures len { IfOk result (λ _. vec_len frames.new ≡ vec_len frames.old + 1) }
    ensures err { IfErr result (λ e. e ≡ Memory) }
{
    match frames.push(frame) {
        Ok(()) => Ok(()),
        Err(_) => Err(ParseStop::Memory),
    }
}

fn push_step<'a>(
    steps: &mut Vec<Step<MapNameAtColumn>>,
    step: Step<MapNameAtColumn>,
) -> Result<(), ParseStop<'a>>
    ensures ok { IfOk result (λ _. steps.new.items ≡ steps.old.items ++ step ∷ []) }
    ensures err { IfErr result (λ e. e ≡ Memory) }
{
    match steps.push(step) {
        Ok(()) => Ok(()),
        Err(_) => Err(ParseStop::Memory),
    }
}

impl<'a> ExpressionReader<'a> {
    // Begins to read an expression.
    fn enter(&mut self, tokens: &'a [TokenAtColumn]) -> Result<ReaderAction<'a>, ParseStop<'a>>
        ensures goes { ActionContinuesWaitingStates self.old
            (Expression tokens.now) self.new result }
        ensures lighter { ActionLeavesAtMostWork
            (reader_work_bound tokens.now self.old + 2) self.new result }
    {
        push_frame(&mut self.frames, ParserFrame::Choice)?;
        push_frame(&mut self.frames, ParserFrame::Level(TOP_OPERATOR_LEVEL))?;
        Ok(ReaderAction::Operand(tokens))
    }

    // Finishes the current part with a step.
    fn end(
        &mut self,
        step: Step<MapNameAtColumn>,
        tokens: &'a [TokenAtColumn],
    ) -> Result<ReaderAction<'a>, ParseStop<'a>>
        ensures goes { (s : ParserState)
            → LastStepsAreOperandForState s (waiting_frames self.old) (self.old.steps.items ++ step
            ∷ []) tokens.now
            → ActionLeadsToOutcomeOrStop s self.new result }
        ensures lighter { ActionLeavesAtMostWork
            (reader_work_bound tokens.now self.old) self.new result }
    {
        push_step(&mut self.steps, step)?;
        Ok(ReaderAction::After(tokens))
    }

    fn operand(
        &mut self,
        alloc: Global,
        tokens: &'a [TokenAtColumn],
    ) -> Result<ReaderAction<'a>, ParseStop<'a>>
        ensures goes { ActionContinuesWaitingStates self.old (Operand tokens.now) self.new result }
        ensures lighter { IfOk result (λ turn. reader_work_bound
            (tokens_left_by_action turn) self.new
            < reader_work_bound tokens.now self.old) }
    {
        let Some((placed, rest)) = split_first_token(tokens) else {
            return Err(ParseStop::At(CalcKind::Expected, tokens));
        };
        match &placed.token {
            Token::Number(n) => self.end(Step::Number(*n), rest),
            Token::Name(name) => match tokens_after_sign(Sign::OpenParenthesis, rest) {
                Some(inside) => self.read_call(name, tokens, inside),
                None => self.read_map_operand(alloc, name, placed.column, rest),
            },
            Token::Sign(sign) => self.read_signed_operand(*sign, tokens, rest),
        }
    }

    // Reads an operand that begins with a sign, or returns an error.
    fn read_signed_operand(
        &mut self,
        sign: Sign,
        tokens: &'a [TokenAtColumn],
        rest: &'a [TokenAtColumn],
    ) -> Result<ReaderAction<'a>, ParseStop<'a>>
        requires { RestFollowsSign sign tokens.now rest.now }
        ensures goes { ActionContinuesWaitingStates self.old (Operand tokens.now) self.new result }
        ensures lighter { ActionLeavesAtMostWork
            (reader_work_bound rest.now self.old + 3) self.new result }
    {
        match sign {
            Sign::Minus => {
                push_frame(&mut self.frames, ParserFrame::Negated)?;
                Ok(ReaderAction::Operand(rest))
            }
            Sign::Exclamation => {
                push_frame(&mut self.frames, ParserFrame::Not)?;
                Ok(ReaderAction::Operand(rest))
            }
            Sign::OpenParenthesis => {
                push_frame(&mut self.frames, ParserFrame::Parenthesis)?;
                self.enter(rest)
            }
            _ => Err(ParseStop::At(CalcKind::Expected, tokens)),
        }
    }

    // Reads a map operand, with its offsets if they follow the name.
    fn read_map_operand(
        &mut self,
        alloc: Global,
        name: &Name,
        column: u32,
        tokens: &'a [TokenAtColumn],
    ) -> Result<ReaderAction<'a>, ParseStop<'a>>
        requires { TokenIsNotSign OpenParenthesis (head_token tokens.now) }
        ensures goes { ActionContinuesWaitingStates self.old
            (Operand (name_token_at_column name.now column ∷ tokens.now)) self.new
            result }
        ensures lighter { ActionLeavesAtMostWork
            (reader_work_bound tokens.now self.old) self.new result }
    {
        let name = name_copy(alloc, name)?;
        let leaf = MapNameAtColumn { name, column };
        let Some(after) = tokens_after_sign(Sign::OpenBracket, tokens) else {
            let map = Step::Map {
                leaf,
                down: 0,
                right: 0,
            };
            return self.end(map, tokens);
        };
        let ((down, right), rest) = read_both_offsets(after)?;
        let map = Step::Map { leaf, down, right };
        self.end(map, rest)
    }

    // Reads a call, after its name and the opening parenthesis.
    fn read_call(
        &mut self,
        name: &Name,
        tokens: &'a [TokenAtColumn],
        inside: &'a [TokenAtColumn],
    ) -> Result<ReaderAction<'a>, ParseStop<'a>>
        requires { RestFollowsCallOpening name.now tokens.now inside.now }
        ensures goes { ActionContinuesWaitingStates self.old (Operand tokens.now) self.new result }
        ensures lighter { ActionLeavesAtMostWork
            (reader_work_bound inside.now self.old + 3) self.new result }
    {
        let Some(function) = function_with_name(name.bytes()) else {
            return Err(ParseStop::At(CalcKind::UnknownFunction, tokens));
        };
        match tokens_after_sign(Sign::CloseParenthesis, inside) {
            Some(rest) => {
                if accepts_argument_count(function, 0) {
                    self.end(Step::Call(function, 0), rest)
                } else {
                    Err(ParseStop::At(CalcKind::Arguments, tokens))
                }
            }
            None => {
                let waits = ParserFrame::Call {
                    function,
                    from: tokens,
                    count: 0,
                };
                push_frame(&mut self.frames, waits)?;
                self.enter(inside)
            }
        }
    }

    // Continues with the frame that waited for the part that was just read.
    fn resume(
        &mut self,
        frame: ParserFrame<'a>,
        tokens: &'a [TokenAtColumn],
    ) -> Result<ReaderAction<'a>, ParseStop<'a>>
        ensures goes { ActionContinuesWaitingFrame self.old frame.entry tokens.now self.new result }
        ensures lighter { ActionLeavesAtMostWork
            (reader_work_bound tokens.now self.old) self.new result }
    {
        match frame {
            ParserFrame::Negated => self.end(Step::Negated, tokens),
            ParserFrame::Not => self.end(Step::Not, tokens),
            ParserFrame::Level(level) => self.level(level, tokens),
            ParserFrame::Joined(level, operator) => {
                push_step(&mut self.steps, Step::Binary(operator))?;
                self.level(level, tokens)
            }
            ParserFrame::Choice => self.choice(tokens),
            ParserFrame::AfterQuestion => self.otherwise(tokens),
            ParserFrame::AfterColon => self.end(Step::Call(Function::If, 3), tokens),
            ParserFrame::Parenthesis => match tokens_after_sign(Sign::CloseParenthesis, tokens) {
                Some(rest) => Ok(ReaderAction::After(rest)),
                None => Err(ParseStop::At(CalcKind::Expected, tokens)),
            },
            ParserFrame::Call {
                function,
                from,
                count,
            } => self.argument(function, from, count, tokens),
        }
    }

    // Continues an expression of this level, if an operator follows.
    fn level(
        &mut self,
        level: u32,
        tokens: &'a [TokenAtColumn],
    ) -> Result<ReaderAction<'a>, ParseStop<'a>>
        ensures goes { ActionContinuesWaitingFrame self.old
            (frame.Level level) tokens.now self.new result }
        ensures lighter { ActionLeavesAtMostWork
            (reader_work_bound tokens.now self.old) self.new result }
    {
        let Some((operator, rest)) = split_operator_of_level(level, tokens) else {
            return Ok(ReaderAction::After(tokens));
        };
        push_frame(&mut self.frames, ParserFrame::Joined(level, operator))?;
        push_frame(
            &mut self.frames,
            ParserFrame::Level(right_operand_level(operator)),
        )?;
        Ok(ReaderAction::Operand(rest))
    }

    // Continues after a condition or a complete expression.
    fn choice(&mut self, tokens: &'a [TokenAtColumn]) -> Result<ReaderAction<'a>, ParseStop<'a>>
        ensures goes { ActionContinuesWaitingFrame self.old frame.Choice tokens.now self.new
            result }
        ensures lighter { ActionLeavesAtMostWork
            (reader_work_bound tokens.now self.old) self.new result }
    {
        let Some(rest) = tokens_after_sign(Sign::Question, tokens) else {
            return Ok(ReaderAction::After(tokens));
        };
        push_frame(&mut self.frames, ParserFrame::AfterQuestion)?;
        self.enter(rest)
    }

    // Continues after the choice for a true condition.
    fn otherwise(&mut self, tokens: &'a [TokenAtColumn]) -> Result<ReaderAction<'a>, ParseStop<'a>>
        ensures goes { ActionContinuesWaitingFrame self.old frame.AfterQuestion tokens.now self.new
            result }
        ensures lighter { ActionLeavesAtMostWork
            (reader_work_bound tokens.now self.old) self.new result }
    {
        let Some(rest) = tokens_after_sign(Sign::Colon, tokens) else {
            return Err(ParseStop::At(CalcKind::Expected, tokens));
        };
        push_frame(&mut self.frames, ParserFrame::AfterColon)?;
        self.enter(rest)
    }

    // Continues after an argument that follows `before` other arguments of the call.
    fn argument(
        &mut self,
        function: Function,
        from: &'a [TokenAtColumn],
        before: usize,
        tokens: &'a [TokenAtColumn],
    ) -> Result<ReaderAction<'a>, ParseStop<'a>>
        ensures goes { ActionContinuesWaitingFrame self.old
            (frame.Call function from.entry before) tokens.now self.new
            result }
        ensures lighter { ActionLeavesAtMostWork
            (reader_work_bound tokens.now self.old) self.new result }
    {
        // Each argument has added a step, so memory runs out before this count overflows.
        let Some(count) = before.checked_add(1) else {
            return Err(ParseStop::Memory);
        };
        if let Some(rest) = tokens_after_sign(Sign::CloseParenthesis, tokens) {
            if accepts_argument_count(function, count) {
                return self.end(Step::Call(function, count), rest);
            }
            return Err(ParseStop::At(CalcKind::Arguments, from));
        }
        let Some(rest) = tokens_after_sign(Sign::Comma, tokens) else {
            return Err(ParseStop::At(CalcKind::Expected, tokens));
        };
        push_frame(
            &mut self.frames,
            ParserFrame::Call {
                function,
                from,
                count,
            },
        )?;
        self.enter(rest)
    }
}

/// Reads an expression. Returns its steps and the tokens after it.
pub(crate) fn read_expression<'a>(
    alloc: Global,
    tokens: &'a [TokenAtColumn],
) -> Result<(Vec<Step<MapNameAtColumn>>, &'a [TokenAtColumn]), ParseStop<'a>>
    ensures ok { IfOk result
        (λ x. ParserStateReadsAs (Expression tokens.now) (Got (tree_of_steps x.0.items) x.1.now)) }
    ensures steps { IfOk result (λ x. x.0.items ≡ postfix (tree_of_steps x.0.items)) }
    ensures err { IfErr result (λ e. ParserStopsWhereReadingStops (Expression tokens.now) e) }
{
    let mut reader = ExpressionReader {
        frames: Vec::new(alloc),
        steps: Vec::new(alloc),
    };
    let mut turn = reader.enter(tokens)?;
    'turns: loop {
        turn = match turn {
            ReaderAction::Operand(tokens) => reader.operand(alloc, tokens)?,
            ReaderAction::After(tokens) => match reader.frames.pop() {
                Some(frame) => reader.resume(frame, tokens)?,
                None => return Ok((reader.steps, tokens)),
            },
        };
    }
}
