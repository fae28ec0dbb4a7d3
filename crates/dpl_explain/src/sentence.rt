// The sentence of each refusal and each fault.
// They say what the code means; the place says where.

use dpl_frame::FaultCode;
use dpl_syntax::Code;

// What a refused text did.
pub(crate) fn refusal_sentence(code: Code) -> &'static str {
    match code {
        Code::NotText => "the text is longer than 1048576 bytes, or is not UTF-8 here",
        Code::BadCharacter => {
            "no token is spelled like this: a bad character, number or escape, or a comment or text without an end"
        }
        Code::NumberTooLarge => "the number is greater than 9223372036854775807",
        Code::Unexpected => {
            "no program goes on like this, or what begins here is not run: locales, tasks, cells"
        }
        Code::TooDeep => "this is nested more than 64 levels deep",
        Code::UnknownName => "the name is not declared here",
        Code::NameTwice =>
            "the name is declared twice in one scope, or stands twice in one list of intents",
        Code::WrongType => "this is not of a type that fits here",
        Code::ConstantWritten => "a constant is not written, nor is the variable of a loop",
        Code::WrongRank => "the rank asks for another number of indices, ranges or names",
        Code::WrittenElsewhere => "a forall writes an array at its own index alone",
        Code::ReadElsewhere => "a forall reads an array that it writes at its own index alone",
        Code::OuterChanged => {
            "a forall changes an outer variable through a reduce intent alone, and does not read a reduce variable"
        }
        Code::NotInForall =>
            "this does not stand in the body of a forall, nor in a promoted expression",
        Code::NotInCoforall => {
            "the body of a coforall does not hold this, and writes no outer variable"
        }
        Code::CellMisused => {
            "a sync variable is used by its methods, and read as a statement or as a whole right side"
        }
        Code::TooMany => "more than 4096 names or 64 sync variables are declared",
        Code::BadSet => {
            "a word of the command line sets no config const: it has no =, another name or another value, or is the second one"
        }
    }
}

// How a fault's code is spelled.
pub(crate) fn fault_text(code: FaultCode) -> &'static str {
    match code {
        FaultCode::Outside => "F1",
        FaultCode::ZeroDivisor => "F2",
        FaultCode::PastLimit => "F3",
        FaultCode::EmptyEnd => "F4",
        FaultCode::Budget => "F5",
        FaultCode::NoLocale => "F6",
        FaultCode::CellStuck => "F7",
        FaultCode::ArrayTooLarge => "F8",
    }
}

// What stopped a program.
pub(crate) fn fault_sentence(code: FaultCode) -> &'static str {
    match code {
        FaultCode::Outside => "the index is outside the array",
        FaultCode::ZeroDivisor => "division by zero",
        FaultCode::PastLimit => {
            "a bound or a stride is past 2^60, a stride is 0, a count is negative, or there are too many indices or tasks"
        }
        FaultCode::EmptyEnd => "an empty range has no first, last, lowest or highest member",
        FaultCode::Budget =>
            "a loop, a reduction or a whole array has more turns than the budget; --budget sets another",
        FaultCode::NoLocale => "there is no locale of this number",
        FaultCode::CellStuck => "the sync variable stays blocked",
        FaultCode::ArrayTooLarge => "the array has more than 16777216 elements",
    }
}
