//! A law that checks the definitions by an example. By the definitions, one script writes the text that was worked out
//! by hand.

ghost use Rattle.std.specs.Prelude.{[], Some};
ghost use Rattle.tc_cli.specs.Examples as example;
ghost use Rattle.tc_cli.specs.Written.{IsScriptWritten};

/// States that a script with operations of each kind except the CLCW writes the text that was worked out by hand.
pub fn a_script_writes_this()
    ensures { IsScriptWritten 42 example.script (Some []) (Some example.text) }
{}
