//! The laws of values and instructions. Each is the contract of a function with an empty body.
ghost use Rattle.ops.specs.Laws.{AllowsValueIsReflexive, AllowsEffectIsReflexive, AllowsValueIsTransitive, AllowsEffectIsTransitive, InstructionIsMonotone, ComparisonIsMonotone, ConversionIsMonotone, UnaryIsMonotone, SelectionIsMonotone, InstructionKeepsWidth, ComparisonIsOneBit, ConversionHasWidth, UnaryKeepsWidth, SelectionKeepsWidth, UndefinedIsOfDivisions};

/// Each value, and each effect, allows itself.
pub fn allowing_is_reflexive()
    ensures values { AllowsValueIsReflexive }
    ensures effects { AllowsEffectIsReflexive }
{}

/// A value allows whatever the values that it allows do, and so does an effect: allowing is transitive.
pub fn allowing_is_transitive()
    ensures values { AllowsValueIsTransitive }
    ensures effects { AllowsEffectIsTransitive }
{}

/// Instructions are monotone: operands that allow others give an effect, or a value, that allows what those give.
pub fn instructions_are_monotone()
    ensures evaluate { InstructionIsMonotone }
    ensures compare { ComparisonIsMonotone }
    ensures convert { ConversionIsMonotone }
    ensures unary { UnaryIsMonotone }
    ensures choose { SelectionIsMonotone }
{}

/// Operands of their widths give a value of the result's width, unless the effect is undefined behaviour.
pub fn instructions_keep_widths()
    ensures evaluate { InstructionKeepsWidth }
    ensures compare { ComparisonIsOneBit }
    ensures convert { ConversionHasWidth }
    ensures unary { UnaryKeepsWidth }
    ensures choose { SelectionKeepsWidth }
{}

/// Undefined behaviour is the effect of a division by poison or by 0, and of a signed one of poison or of the least
/// number by -1.
pub fn undefined_is_of_divisions()
    ensures { UndefinedIsOfDivisions }
{}
