//! The law of faults, as the contract of a function with an empty body.
ghost use Rattle.ir_viable_prefixes.specs.Laws.{FaultsAreWhereTextsDoNotFit};

/// A text is refused at the first token with which its tokens are no viable prefix of the grammar. The kind of fault
/// says which other tokens fit there, or what is wrong in a call, and there is only one such fault. A text whose tokens
/// all fit is not refused.
pub fn faults_are_where_texts_do_not_fit()
    ensures { FaultsAreWhereTextsDoNotFit }
{
    ir_parse::modules_are_read_as_they_are_spelled();
    ir_tokens::every_text_has_one_list_of_tokens();
}
