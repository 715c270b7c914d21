// Lines of a script.
use explained::chosen::Chosen;
use moments::pair::{Face, Pair};
use moments::triad::Triad;
use script::command::{Command, Rules};
use script::lines::read_line;
use script::unreadable::{Unreadable, Why};

#[test]
fn commands_are_read(rt: HostRuntime) {
    let (bottom, top) = (Chosen::Yield, Chosen::Box);
    assert_eq!(rt;
        read_line(b"rules yield box        # bottom rule, top rule"),
        Ok(Some(Command::Rules(Rules { bottom, top })))
    );
    let (mx, my, mxy) = (13, -8, 5);
    let triad = Triad { mx, my, mxy };
    assert_eq!(rt;
        read_line(b"enter 1 13 -8 5\r"),
        Ok(Some(Command::Enter { number: 1, triad }))
    );
    let (face, pair) = (Face::Bottom, Pair { mx: 17, my: 0 });
    assert_eq!(rt;
        read_line(b"\tcheck bottom 17 0"),
        Ok(Some(Command::Check { face, pair }))
    );
    assert_eq!(rt; read_line(b"  # a comment"), Ok(None));
}

#[test]
fn faults_have_a_place(rt: HostRuntime) {
    let (place, why) = (13, Why::MissingWord);
    assert_eq!(rt;
        read_line(b"enter 1 13 -8# My"),
        Err(Unreadable { place, why })
    );
    let (place, why) = (16, Why::NotAWhole);
    assert_eq!(rt;
        read_line(b"check bottom 17 x"),
        Err(Unreadable { place, why })
    );
}
