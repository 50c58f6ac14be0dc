// Reads one number a line and prints the whole hole as one layer under the median charge.
#![tactic(auto)]

ghost use Rattle.std.specs.Prelude.{◌≡◌, [], ◌∷◌, ◌++◌, ℤ, IfOk, Ok, MatchResult};
ghost use Rattle.layering.specs.Layers.{whole_hole};

use amounts::Whole;
use charges::{Charge, Refusal};
use fault::{Complaint, Fault};
use layer::Layer;
use medians::median::Median;
use medians::place::Place;
use std::io;
use std::process::ExitCode;

mod fault;
mod layer;

// The readings held, as one layer.
fn as_one_layer<C: Charge<Cost = Whole>>(charge: &C) -> Result<Layer, Refusal>
    ensures value { result ≡ whole_hole (C.rules charge.now) (C.leveling charge.now) (C.held charge.now) }
{
    let last = charge.count();
    let fee = charge.fee(0, last)?;
    let level = charge.level(0, last)?;
    Ok(Layer {
        first: 1,
        last,
        level,
        fee: fee.number,
    })
}

// Takes the number on one line, or says what is wrong with it and changes nothing.
fn take_line<C: Charge>(charge: &mut C, line: &str) -> Result<(), Complaint>
    ensures cases { MatchResult result (λ _. (x : ℤ) × (C.held charge.new ≡ C.held charge.old ++ (x ∷ []))) (λ _. charge.new ≡ charge.old) }
    ensures rules { C.rules charge.new ≡ C.rules charge.old }
    ensures leveling { C.leveling charge.new ≡ C.leveling charge.old }
{
    let reading = line.parse().map_err(|_| Complaint::NotANumber)?;
    charge.take(reading)?;
    Ok(())
}

// Takes the numbers of a text, one a line, up to the first line at fault.
fn take_lines<C: Charge>(charge: &mut C, text: &str) -> Result<(), Fault>
    ensures rules { C.rules charge.new ≡ C.rules charge.old }
    ensures leveling { C.leveling charge.new ≡ C.leveling charge.old }
{
    for (i, line) in text.lines().enumerate() {
        take_line(charge, line).map_err(|complaint| Fault {
            line: i.saturating_add(1),
            complaint,
        })?;
    }
    Ok(())
}

// The layer of a text of numbers, or its first fault.
fn layer_of<C: Charge<Cost = Whole>>(charge: &mut C, text: &str) -> Result<Layer, Fault>
    ensures layer { IfOk result (λ l. Ok l ≡ whole_hole (C.rules charge.old) (C.leveling charge.old) (C.held charge.new)) }
{
    take_lines(charge, text)?;
    as_one_layer(charge).map_err(|_| Fault {
        line: 1,
        complaint: Complaint::NoReading,
    })
}

// Reads the input and prints its layer.
fn run(rt: &HostRuntime) -> anyhow::Result<()> {
    let text = io::read_to_string(rt.alloc(), rt.stdin())?;
    let mut places = vec![in rt.alloc(); Place { reading: 0, at: 0 }; 1024]?;
    let mut charge = Median::new(&mut places, 1024);
    let layer = layer_of(&mut charge, text.as_str())?;
    rt.println(layer)?;
    Ok(())
}

// A failure is told in one line on standard error, and ends the program with status 1.
fn main(rt: HostRuntime) -> anyhow::Result<ExitCode> {
    match run(&rt) {
        Ok(()) => Ok(ExitCode::SUCCESS),
        Err(failure) => {
            eprintln!(rt; "{failure}")?;
            Ok(ExitCode::FAILURE)
        }
    }
}

#[cfg(test)]
mod tests {
    use super::*;
    use std::test::Fail;

    // What the program makes of a text, with room for three readings.
    fn told(text: &str) -> Result<Layer, Fault> {
        let mut places = [Place { reading: 0, at: 0 }; 3];
        let mut charge = Median::new(&mut places, 3);
        layer_of(&mut charge, text)
    }

    fn fault(line: usize, complaint: Complaint) -> Result<Layer, Fault> {
        Err(Fault { line, complaint })
    }

    #[test]
    fn faults_have_their_lines(rt: HostRuntime) {
        assert_eq!(rt; told(""), fault(1, Complaint::NoReading));
        assert_eq!(rt; told("\n"), fault(1, Complaint::NotANumber));
        assert_eq!(rt; told("3\nx\n"), fault(2, Complaint::NotANumber));
        assert_eq!(rt; told("3\n1 2\n"), fault(2, Complaint::NotANumber));
        assert_eq!(rt;
            told("1000000\n1000001\n"),
            fault(2, Complaint::Refused(Refusal::Unlawful))
        );
        assert_eq!(rt;
            told("1\n2\n3\n4\n"),
            fault(4, Complaint::Refused(Refusal::Full))
        );
    }

    #[test]
    fn layers_are_told(rt: HostRuntime) {
        let one = Layer {
            first: 1,
            last: 1,
            level: -1000000,
            fee: 0,
        };
        let three = Layer {
            first: 1,
            last: 3,
            level: 4,
            fee: 7,
        };
        assert_eq!(rt; told("-1000000"), Ok(one));
        assert_eq!(rt; told("10\n3\n4\n"), Ok(three));
    }

    #[test]
    fn faults_are_shown(rt: HostRuntime) -> Result<(), Fail> {
        let full = Fault {
            line: 4,
            complaint: Complaint::Refused(Refusal::Full),
        };
        let shown = full.to_string(rt.alloc())?;
        assert!(rt; shown.as_str() == "line 4: refused (6): too many readings");
        Ok(())
    }
}
