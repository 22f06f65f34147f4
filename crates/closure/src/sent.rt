// A list of kinds from elsewhere, beside the contract that it is for, with its kinds in chains by what the contract's mask shows of them.
ghost use Rattle.prepared.specs.Contract.{contract_of};
ghost use Rattle.closure.specs.Search.{Searchable, searchable-prop};

use masks::Masked;
use shown_kinds::CHAINS;

#[derive(Clone, Copy)]
pub struct SentKinds<'a> {
    pub masked: &'a Masked<'a>,
    pub words: &'a [u64],
    pub mask: &'a [u64; 6],
    pub chains: &'a [u16; CHAINS],
    pub ghost searchable: { Searchable (contract_of masked.now.prepared) words.now mask.now chains.now } by { searchable-prop (contract_of masked.now.prepared) words.now mask.now chains.now },
}
