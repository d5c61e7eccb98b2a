//! The demo network: a small day of vehicles and drivers, as the planner is given it.

/// Two trips of one line, from A to B and back, a depot D with two vehicles, and a group of two drivers.
pub const DEMO: &str = "mod; DD.MM.YYYY; HH:MM:SS; free
src; \"demo\"; \"01.01.2000\"; \"00:00:00\"
chs; \"ISO8859-1\"
ver; \"1.4\"
ifv; \"1.4\"
dve; \"1.4\"
fft; \"\"
tbl; BASIS_VER_GUELTIGKEIT
atr; VER_GUELTIGKEIT; BASIS_VERSION
frm; num[10.0]; num[10.0]
rec; 20260101; 1
end; 1
tbl; FIRMENKALENDER
atr; BASIS_VERSION; BETRIEBSTAG; TAGESART_NR
frm; num[10.0]; num[10.0]; num[10.0]
rec; 1; 20260302; 1
end; 1
tbl; REC_ORT
atr; BASIS_VERSION; ONR_TYP_NR; ORT_NR
frm; num[10.0]; num[10.0]; num[10.0]
rec; 1; 1; 1
rec; 1; 1; 2
rec; 1; 2; 9
end; 3
tbl; REC_SEL
atr; BASIS_VERSION; BEREICH_NR; ONR_TYP_NR; ORT_NR; SEL_ZIEL; SEL_ZIEL_TYP; SEL_LAENGE
frm; num[10.0]; num[10.0]; num[10.0]; num[10.0]; num[10.0]; num[10.0]; num[10.0]
rec; 1; 1; 1; 1; 2; 1; 60000
rec; 1; 1; 1; 2; 1; 1; 60000
end; 2
tbl; SEL_FZT_FELD
atr; BASIS_VERSION; BEREICH_NR; FGR_NR; ONR_TYP_NR; ORT_NR; SEL_ZIEL; SEL_ZIEL_TYP; SEL_FZT
frm; num[10.0]; num[10.0]; num[10.0]; num[10.0]; num[10.0]; num[10.0]; num[10.0]; num[10.0]
rec; 1; 1; 1; 1; 1; 2; 1; 3600
rec; 1; 1; 1; 1; 2; 1; 1; 3600
end; 2
tbl; REC_LID
atr; BASIS_VERSION; LI_NR; STR_LI_VAR; BEREICH_NR
frm; num[10.0]; num[10.0]; char[6]; num[10.0]
rec; 1; 1; \"H\"; 1
rec; 1; 1; \"R\"; 1
end; 2
tbl; LID_VERLAUF
atr; BASIS_VERSION; LI_LFD_NR; LI_NR; STR_LI_VAR; ONR_TYP_NR; ORT_NR
frm; num[10.0]; num[10.0]; num[10.0]; char[6]; num[10.0]; num[10.0]
rec; 1; 1; 1; \"H\"; 1; 1
rec; 1; 2; 1; \"H\"; 1; 2
rec; 1; 1; 1; \"R\"; 1; 2
rec; 1; 2; 1; \"R\"; 1; 1
end; 4
tbl; REC_FRT
atr; BASIS_VERSION; FRT_FID; FRT_START; LI_NR; TAGESART_NR; FAHRTART_NR; FGR_NR; STR_LI_VAR; UM_UID
frm; num[10.0]; num[10.0]; num[10.0]; num[10.0]; num[10.0]; num[10.0]; num[10.0]; char[6]; num[10.0]
rec; 1; 1; 28800; 1; 1; 1; 1; \"H\"; NULL
rec; 1; 2; 33000; 1; 1; 1; 1; \"R\"; NULL
end; 2
tbl; UEB_FZT
atr; BASIS_VERSION; BEREICH_NR; FGR_NR; ONR_TYP_NR; ORT_NR; UEB_ZIEL_TYP; UEB_ZIEL; UEB_FAHRZEIT
frm; num[10.0]; num[10.0]; num[10.0]; num[10.0]; num[10.0]; num[10.0]; num[10.0]; num[10.0]
rec; 1; 1; 1; 2; 9; 1; 1; 600
rec; 1; 1; 1; 1; 1; 2; 9; 600
rec; 1; 1; 1; 2; 9; 1; 2; 900
rec; 1; 1; 1; 1; 2; 2; 9; 900
end; 4
tbl; MENGE_FZG_TYP
atr; BASIS_VERSION; FZG_TYP_NR
frm; num[10.0]; num[10.0]
rec; 1; 1
end; 1
tbl; X_PLAN
atr; UEB_BEREICH_NR; UEB_FGR_NR; WENDE_SEK; MAX_WARTE_SEK; UEBERGABE_SEK
frm; num[10.0]; num[10.0]; num[10.0]; num[10.0]; num[10.0]
rec; 1; 1; 300; 7200; 300
end; 1
tbl; X_HOF
atr; HOF_NR; ONR_TYP_NR; ORT_NR; FZG_TYP_NR; ANZAHL; FIX_KOSTEN; LEER_SATZ; STAND_SATZ
frm; num[10.0]; num[10.0]; num[10.0]; num[10.0]; num[10.0]; num[10.0]; num[10.0]; num[10.0]
rec; 1; 2; 9; 1; 2; 1000; 1; 0
end; 1
tbl; X_ABLOESE
atr; ONR_TYP_NR; ORT_NR
frm; num[10.0]; num[10.0]
rec; 1; 2
end; 1
tbl; X_WEG
atr; ONR_TYP_NR; ORT_NR; ZIEL_TYP; ZIEL_NR; WEG_SEK
frm; num[10.0]; num[10.0]; num[10.0]; num[10.0]; num[10.0]
rec; 1; 2; 2; 9; 1200
rec; 2; 9; 1; 2; 1200
end; 2
tbl; X_FAHRER
atr; GRUPPE_NR; ONR_TYP_NR; ORT_NR; ANZAHL; FIX_KOSTEN; SATZ; ANMELDE_SEK; ABMELDE_SEK
frm; num[10.0]; num[10.0]; num[10.0]; num[10.0]; num[10.0]; num[10.0]; num[10.0]; num[10.0]
rec; 1; 2; 9; 2; 500; 1; 600; 300
end; 1
eof; 15
";
