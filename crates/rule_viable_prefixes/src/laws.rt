//! The laws of faults, each the contract of a function that does nothing.
ghost use Rattle.rule_viable_prefixes.specs.Laws.{RefusalsAreExact};
ghost use Rattle.rule_viable_prefixes.specs.WiderLimits.{
  TextsAreRefusedByLimitsAsTooMany,
  WiderLimitsChangeTooManyAlone,
};

/// Within any limits that leave a level of nesting, the fault of a text is exactly that of the first token with which
/// its tokens are no viable prefix of the grammar or a limit is passed, or of its end, where they are a viable prefix
/// and spell no rules. A text whose tokens spell rules, none of which has too many nodes, has none.
pub fn refusals_are_exact()
    ensures { RefusalsAreExact }
{
    scan::every_place_has_one_rule_token();
}

/// Limits of names, nesting and statements change nothing but `TooMany`: a text that spells rules within some limits is
/// read within others, or refused as `TooMany`.
pub fn limits_are_told_as_too_many()
    ensures wider { WiderLimitsChangeTooManyAlone }
    ensures texts { TextsAreRefusedByLimitsAsTooMany }
{
    scan::every_place_has_one_rule_token();
}
