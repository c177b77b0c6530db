ghost use Rattle.der.specs.Promises.{ReadBack, OneWriting, WrittenAgain};
ghost use Rattle.mech_types.specs.Lists.{mech_type_list, GoodList};
ghost use Rattle.mech_types.specs.Reading.{read_mech_type_list};
ghost use Rattle.spnego.specs.Reading.{read_targ, read_init};
ghost use Rattle.spnego.specs.Tokens.{targ_bytes, TargWellFormed, init_bytes, InitWellFormed};

// Reading what was written gives the same fields, for both tokens and the list of mechanisms.
pub fn fields_written_are_read_back()
    ensures targ { ReadBack TargWellFormed targ_bytes read_targ }
    ensures init { ReadBack InitWellFormed init_bytes read_init }
    ensures list { ReadBack GoodList mech_type_list read_mech_type_list }
{}

// Well-formed fields with the same bytes are the same fields, and a legal token is the writing of what is read from it.
pub fn a_legal_token_has_no_other_writing()
    ensures targ { (OneWriting TargWellFormed targ_bytes) × (WrittenAgain targ_bytes read_targ) }
    ensures init { (OneWriting InitWellFormed init_bytes) × (WrittenAgain init_bytes read_init) }
    ensures list { (OneWriting GoodList mech_type_list) × (WrittenAgain mech_type_list read_mech_type_list) }
{}
