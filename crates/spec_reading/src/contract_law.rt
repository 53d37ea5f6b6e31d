ghost use Rattle.spec_reading.specs.ContractLaws.{OneContract, FindsContracts, GivesContracts, RefusesContracts, RefusesHighContracts, ContractHeightIsLeast};
ghost use Rattle.spec_reading.specs.SpecLaws.{OneSpec, FindsSpecs, GivesSpecs, RefusesSpecs, RefusesHighSpecs, SpecHeightIsLeast, SeesSpecs, SpecsBeginSo};

/// No tokens are two contracts, whatever their heights.
pub fn one_contract()
    ensures { OneContract }
{}

/// Reading finds the contract that is written, and gives no other. It answers that a tree is too high only where there
/// are as many tokens as the height that is allowed.
pub fn contracts_are_read()
    ensures finds { FindsContracts }
    ensures gives { GivesContracts }
    ensures refuses { RefusesContracts }
    ensures too_high { RefusesHighContracts }
{}

/// The height of a contract is the least number with which it is written.
pub fn contract_height_is_least()
    ensures { ContractHeightIsLeast }
{}

/// No tokens are two spec methods, whatever their heights.
pub fn one_spec_method()
    ensures { OneSpec }
{}

/// Reading finds the spec method that is written, and gives no other. It answers that a tree is too high only where
/// there are as many tokens as the height that is allowed.
pub fn spec_methods_are_read()
    ensures finds { FindsSpecs }
    ensures gives { GivesSpecs }
    ensures refuses { RefusesSpecs }
    ensures too_high { RefusesHighSpecs }
{}

/// The height of a spec method is the least number with which it is written.
pub fn spec_height_is_least()
    ensures { SpecHeightIsLeast }
{}

/// The look-ahead sees a spec method exactly where `spec`, a type and an identifier stand, and each spec method begins
/// so.
pub fn spec_methods_are_seen()
    ensures sees { SeesSpecs }
    ensures begins { SpecsBeginSo }
{}
